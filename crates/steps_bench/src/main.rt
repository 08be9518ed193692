//! Times the acts of a graph: by how many components it has and how many headers each port, of a header that goes round in a
//! tunnel, and of a gain's blocks. Figures come only with the word `figures`.
#![tactic(auto)]

mod acts;
mod blocks;
mod client;
mod handing;
mod stopped;
mod working;

use std::{env, io};
use stopped::Host;

fn figures<R: Host>(rt: &R) -> io::Result<()> {
    acts::figures(rt)?;
    handing::figures(rt)?;
    blocks::figures(rt)
}

fn main(rt: HostRuntime) -> io::Result<()> {
    let mut words = env::args(&rt)?;
    let _program = words.next();
    match words.next() {
        Some(word) if word.as_str() == "figures" => figures(&rt),
        _ => println!(rt; "steps_bench: the word figures asks for the figures"),
    }
}
