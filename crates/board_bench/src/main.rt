//! Times acts through a board: by one thread beside the same acts on its graph, by four threads beside a std `Mutex` round the graph; six
//! acts by one draw of tickets beside six single calls; and a look at a state beside a plain load. Figures come only with the word `figures`.
#![tactic(auto)]

mod graph;
mod locked;
mod looks;
mod rows;
mod shared;
mod stopped;

use std::thread::Threads;
use std::{env, io};
use stopped::Host;

fn figures<R: Host + Threads + Sync>(rt: &R) -> io::Result<()> {
    shared::figures(rt)?;
    locked::figures(rt)?;
    rows::figures(rt)?;
    looks::figures(rt)
}

fn main(rt: HostRuntime) -> io::Result<()> {
    let mut words = env::args(&rt)?;
    let _program = words.next();
    match words.next() {
        Some(word) if word.as_str() == "figures" => figures(&rt),
        _ => println!(rt; "board_bench: the word figures asks for the figures"),
    }
}
