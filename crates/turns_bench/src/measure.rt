//! How long threads take to have so many turns, and so many locks of a std `Mutex`.
ghost use Rattle.std.specs.Prelude.{◌≡◌, ◌<◌, All, IfOk};
ghost use Rattle.turnstile.specs.Passes.{IsPassOf, view};

use crate::nothing::Nothing;
use std::alloc::{AllocError, Global};
use std::sync::{Mutex, Wait};
use std::thread::Threads;
use std::time::{Clock, Duration, Instant};
use std::{io, thread};
use turnstile::{Pass, Turnstile};

/// A pass for each thread, split off the root.
fn passes(
    alloc: Global,
    stile: &Turnstile<Nothing>,
    root: &mut Pass<Nothing>,
    threads: u8,
) -> Result<Vec<Pass<Nothing>>, AllocError>
    requires { IsPassOf stile.now root.old × ((view root.old).number ≡ 0) × ((view root.old).splits ≡ 0) }
    ensures { IfOk result (λ passes. All (λ p. IsPassOf stile.now p) passes.items) }
{
    let mut passes = Vec::new(alloc);
    for _ in 0..threads {
        passes.push(stile.split(root))?;
    }
    Ok(passes)
}

/// So many turns on an empty act.
fn take_turns<R: Wait>(rt: &R, stile: &Turnstile<Nothing>, pass: &mut Pass<Nothing>, turns: u64)
    requires { IsPassOf stile.now pass.old }
    ensures { IsPassOf stile.now pass.new }
{
    for _ in 0..turns {
        if stile.turn(rt, pass, ()).is_err() {
            return;
        }
    }
}

/// The time that the threads take, where each has so many turns.
pub fn by_turns<R: Threads + Wait + Clock + Sync>(
    rt: &R,
    alloc: Global,
    threads: u8,
    turns: u64,
) -> io::Result<Duration>
    requires { 0 < threads }
{
    let (stile, mut root) = match Turnstile::new(alloc, Nothing) {
        Ok(made) => made,
        Err((failed, _)) => return Err(io::Error::from(failed)),
    };
    let mut passes = passes(alloc, &stile, &mut root, threads)?;
    let stile = &stile;
    let start = Instant::now(rt)?;
    thread::for_each_mut(
        rt,
        passes.as_mut_slice(),
        usize::from(threads),
        &|_index: usize, pass: &mut Pass<Nothing>|
            requires { IsPassOf stile.now pass.old }
            ensures { IsPassOf stile.entry.now pass.new }
        { take_turns(rt, stile, pass, turns) },
    );
    start.elapsed(rt)
}

/// Locks so many times, and does nothing.
fn take_locks<R: Wait>(rt: &R, lock: &Mutex<()>, locks: u64) {
    for _ in 0..locks {
        drop(lock.lock(rt));
    }
}

/// The time that the threads take, where each locks one `Mutex` so many times.
pub fn by_locks<R: Threads + Wait + Clock + Sync>(
    rt: &R,
    alloc: Global,
    threads: u8,
    locks: u64,
) -> io::Result<Duration>
    requires { 0 < threads }
{
    let mut seats = vec![in alloc; 0u8; usize::from(threads)]?;
    let lock = Mutex::new(());
    let shared = &lock;
    let start = Instant::now(rt)?;
    thread::for_each_mut(
        rt,
        seats.as_mut_slice(),
        usize::from(threads),
        &|_index: usize, _seat: &mut u8| { take_locks(rt, shared, locks) },
    );
    start.elapsed(rt)
}
