//! Times a clock's call that jumps over all moments beside one that goes on by one. Figures come only with the word
//! `figures`.
#![tactic(auto)]

ghost use Rattle.std.specs.Prelude.{◌≤◌, ◌^◌};

use clock_core::{Clock, ClockAct, Fulfilled};
use std::alloc::{AllocError, Global};
use std::time::Instant;
use std::{env, io};

/// How many clocks are called one after the other, and how many rounds of that are timed.
const CLOCKS: u32 = 1_000;

const ROUNDS: u32 = 500;

/// The last wall moment that a clock knows.
const LAST: u64 = 1 << 53;

/// Room for the notes of a call.
type Notes = [Fulfilled; 64];

/// A clock that runs, with a request that is due at the moment 1.
fn started(notes: &mut Notes) -> Clock {
    let mut clock = Clock::new();
    let _started = clock.call(0, ClockAct::Start(0), notes);
    let _asked = clock.call(0, ClockAct::Ask { id: 1, media: 1 }, notes);
    clock
}

fn all_started(alloc: Global, notes: &mut Notes) -> Result<Vec<Clock>, AllocError> {
    let mut clocks = Vec::new(alloc);
    for _ in 0..CLOCKS {
        clocks.push(started(notes))?;
    }
    Ok(clocks)
}

/// Lets the moments up to `wall` pass in each clock.
fn pass_all(clocks: &mut [Clock], wall: u64, notes: &mut Notes)
    requires { wall ≤ 2 ^ 53 }
{
    for clock in clocks {
        let _passed = clock.call(wall, ClockAct::Pass, notes);
    }
}

/// The nanoseconds that the calls take which let the moments up to `wall` pass, in the best of the rounds.
fn time_passing(rt: &HostRuntime, wall: u64) -> io::Result<u128>
    requires { wall ≤ 2 ^ 53 }
{
    let mut notes = [Fulfilled::default(); 64];
    let mut least = u128::MAX;
    for _ in 0..ROUNDS {
        let mut clocks = all_started(rt.alloc(), &mut notes)?;
        let start = Instant::now(rt)?;
        pass_all(&mut clocks, wall, &mut notes);
        least = least.min(start.elapsed(rt)?.as_nanos());
    }
    Ok(least)
}

fn report(rt: &HostRuntime, name: &str, one: u128, time: u128) -> io::Result<()> {
    let call = time / u128::from(CLOCKS);
    let ratio = time.saturating_mul(100) / one.max(1);
    println!(rt; "{name}: {call} ns a call, {ratio} hundredths of the first")
}

fn figures(rt: &HostRuntime) -> io::Result<()> {
    let one = time_passing(rt, 1)?;
    let all = time_passing(rt, LAST)?;
    report(rt, "over 1 moment", one, one)?;
    report(rt, "over 2^53 moments", one, all)
}

fn main(rt: HostRuntime) -> io::Result<()> {
    let mut words = env::args(&rt)?;
    let _program = words.next();
    match words.next() {
        Some(word) if word.as_str() == "figures" => figures(&rt),
        _ => println!(rt; "clock_bench: the word figures asks for the figures"),
    }
}
