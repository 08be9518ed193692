//! Why no figure can be given, and where a refused call leaves what can't be given back.

use omx_types::{CallError, OmxError};
use std::alloc::{AllocError, Global};
use std::rt::Clock;
use std::sync::Wait;
use std::time::{Duration, Instant};
use std::{io, thread};

/// What the benchmark needs of its machine.
pub(crate) trait Host: Alloc<A = Global> + Clock + Print + Wait {}

impl<R: Alloc<A = Global> + Clock + Print + Wait> Host for R {}

/// Why no figure can be given.
#[derive(Clone, Copy, Debug)]
pub(crate) enum Stopped {
    Memory,
    Refused,
    Clock,
}

impl From<AllocError> for Stopped {
    fn from(_error: AllocError) -> Stopped {
        Stopped::Memory
    }
}

impl From<OmxError> for Stopped {
    fn from(_error: OmxError) -> Stopped {
        Stopped::Refused
    }
}

impl From<CallError> for Stopped {
    fn from(error: CallError) -> Stopped {
        match error {
            CallError::OutOfMemory => Stopped::Memory,
            CallError::Omx(_) => Stopped::Refused,
        }
    }
}

impl From<io::Error> for Stopped {
    fn from(_error: io::Error) -> Stopped {
        Stopped::Clock
    }
}

/// The nanoseconds since then.
pub(crate) fn elapsed<R: Host>(rt: &R, began: io::Result<Instant>) -> Result<u128, Stopped> {
    Ok(began?.elapsed(rt)?.as_nanos())
}

/// A refused call left a graph that can't be ended, or a header that no port took. Neither can be let go, so the program says so and
/// stands still until it is stopped.
pub(crate) fn stand_still<T, R: Host>(rt: &R, _kept: T) -> ! {
    let _told = println!(rt; "a call was refused, and its graph can't be ended: stop this program");
    for _ in rt.forever() {
        thread::sleep(rt, Duration::from_secs(60));
    }
    unreachable!()
}
