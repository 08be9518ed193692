//! What a claim answers.

use crate::lent::LentWork;
use outside_io::{Sink, Source};

/// A component's work, or why there is none.
pub enum LentClaim<S: Source, K: Sink> {
    Work(LentWork<S, K>),
    Busy,
    NotRunning,
    Ended,
    /// The port is held, or its format isn't known yet.
    Held(u32),
    /// The input has no header.
    NoData(u32),
    /// The output has no header.
    NoRoom(u32),
    /// There is less room for events than needed.
    Events { room: u32, need: u32 },
}
