//! The program. Its words are a form of `trace`, `play`, `make`, `clock`, `pack`, `unpack` or `audit`, and its exit status is that of what they came to.
#![tactic(auto)]

mod audit;
mod clock;
mod done;
mod making;
mod packed_texts;
mod packets;
mod play;
mod print;
mod program;
mod run;
mod script;
mod summary;
mod text;
mod texts;
mod trace;
mod words;

use outside_host::{HostMedia, HostSink};
use program::run_program;
use std::io::ErrorKind;
use std::process::ExitCode;
use std::{env, io};

fn main(rt: HostRuntime) -> io::Result<ExitCode> {
    let mut out = HostSink::new(rt.stdout());
    let mut media = HostMedia::new(rt.alloc(), rt.clone()?);
    let words = match media.spare_output() {
        Ok(()) => env::args(&rt),
        Err(_) => Err(ErrorKind::OutOfMemory.into()),
    };
    Ok(run_program(&rt, rt.alloc(), words, &mut media, &mut out))
}
