//! The program, from the words that it was given to the status that it ends with.

ghost use Rattle.std.specs.Prelude.{◌≡◌, ◌≤◌, ◌⊎◌, drop, map, string_bytes, Some, IfOk, IfErr};
ghost use Rattle.std.specs.Process.{exit_status};
ghost use Rattle.std.specs.Vec.Iter.{into_iter_items};
ghost use Rattle.outside_io.specs.Files.{GoesOn};
ghost use Rattle.outside_io.specs.declared.writing.Writing.TheVariants.{Going, Stopped};
ghost use Rattle.omx_types.specs.Numbers.{status_number};
ghost use Rattle.omxrun.specs.Ended.{HasEnded, HasEndedUnread};

use crate::print::report;
use crate::run::run_words;
use omx_types::{Fault, Status};
use outside_io::{Media, Sink};
use std::alloc::Global;
use std::env::Args;
use std::io::{self, ErrorKind};
use std::process::ExitCode;
use std::sync::Wait;
use std::thread::Threads;

/// Does what the words behind the program's name ask for. Words that are no text are none of the forms.
pub fn run_program<R: Threads + Wait + Sync, M: Media, O: Sink>(
    rt: &R,
    alloc: Global,
    words: io::Result<Args>,
    media: &mut M,
    out: &mut O,
) -> ExitCode
    ensures goes_on { GoesOn (M.outside media.old) (M.outside media.new) }
    ensures later { O.faults out.old ≤ O.faults out.new }
    ensures stopped { O.writing out.old ≡ Some Going →
        (O.writing out.new ≡ Some Going) ⊎ ((O.writing out.new ≡ Some Stopped) × (exit_status result ≡ 5)) }
    ensures ended { IfOk words (λ words. HasEnded (map string_bytes (drop 1 (into_iter_items words)))
        (M.outside media.old) (M.outside media.new) (O.told out.old) (O.told out.new) (O.faults out.old) (O.faults out.new) (exit_status result)) }
    ensures unread { IfErr words (λ error. HasEndedUnread
        (M.outside media.old) (M.outside media.new) (O.told out.old) (O.told out.new) (O.faults out.old) (O.faults out.new) (exit_status result)) }
{
    match behind_name(alloc, words) {
        Ok(words) => ended(run_words(rt, alloc, &words, media, out)),
        Err(fault) => ended(report(Err(fault), out)),
    }
}

/// The number of a status, as a process ends with it.
fn ended(status: Status) -> ExitCode
    ensures { exit_status result ≡ status_number status }
{
    ExitCode::from(status.number())
}

/// The words behind the program's name, or the fault that none were read.
fn behind_name(alloc: Global, words: io::Result<Args>) -> Result<Vec<String>, Fault>
    ensures behind { IfOk result (λ rest. IfOk words (λ words. rest.items ≡ drop 1 (into_iter_items words))) }
    ensures memory { IfErr result (λ fault. IfOk words (λ words. fault ≡ Fault.OutOfMemory)) }
    ensures unread { IfErr words (λ error. IfErr result (λ fault. (fault ≡ Fault.Usage) ⊎ (fault ≡ Fault.OutOfMemory))) }
    ensures none { IfErr words (λ error. IfOk result (λ rest. ⊥)) }
{
    match words {
        Ok(words) => behind_first(alloc, words),
        Err(error) => Err(match error.kind() {
            ErrorKind::InvalidData => Fault::Usage,
            _ => Fault::OutOfMemory,
        }),
    }
}

/// The words behind the first, in their order.
fn behind_first(alloc: Global, mut words: Args) -> Result<Vec<String>, Fault>
    ensures behind { IfOk result (λ rest. rest.items ≡ drop 1 (into_iter_items words)) }
    ensures memory { IfErr result (λ fault. fault ≡ Fault.OutOfMemory) }
{
    let _name = words.next();
    let mut rest = Vec::new(alloc);
    while let Some(word) = words.next() {
        match rest.push(word) {
            Ok(()) => {}
            Err(_) => return Err(Fault::OutOfMemory),
        }
    }
    Ok(rest)
}
