//! Measures turns: how long a turn on an empty act takes, beside a std `Mutex` that is locked as often.
#![tactic(auto)]

ghost use Rattle.std.specs.Prelude.{◌<◌, IfSome};

mod measure;
mod nothing;

use measure::{by_locks, by_turns};
use std::{env, io};

/// The most threads.
const THREADS: u8 = 64;

/// The number of threads and of turns of each, where both words are there.
fn asked(threads: Option<String>, turns: Option<String>) -> Option<(u8, u64)>
    ensures { IfSome result (λ a. 0 < a.0) }
{
    let threads = threads?.as_str().parse::<u8>().ok()?;
    let turns = turns?.as_str().parse::<u64>().ok()?;
    if threads == 0 || threads > THREADS || turns == 0 {
        return None;
    }
    Some((threads, turns))
}

fn main(rt: HostRuntime) -> io::Result<()> {
    let mut words = env::args(&rt)?;
    let _program = words.next();
    let threads = words.next();
    let turns = words.next();
    let Some((threads, turns)) = asked(threads, turns) else {
        return println!(rt;
            "turns_bench THREADS TURNS: nanoseconds of as many turns, and of as many locks"
        );
    };
    let turning = by_turns(&rt, rt.alloc(), threads, turns)?.as_nanos();
    let locking = by_locks(&rt, rt.alloc(), threads, turns)?.as_nanos();
    println!(rt; "{turning} {locking}")
}
