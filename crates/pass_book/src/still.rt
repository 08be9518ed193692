//! A thread that waits for ever.

use std::sync::Wait;
use std::thread;

/// It never returns.
pub fn stand_still<R: Wait>(rt: &R)
    ensures { ⊥ }
{
    for _ in rt.forever() {
        thread::yield_now();
    }
    unreachable!()
}
