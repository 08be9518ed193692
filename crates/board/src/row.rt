//! Acts that are to be made in a row, and the replies that came.
ghost use Rattle.std.specs.Prelude.{◌≡◌, ◌+◌, ◌≤◌, ◌^◌};
ghost use Rattle.std.specs.VecDeque.{deque_len, deque_capacity};

use crate::asked::{Asked, Told};
use outside_io::{Sink, Source};
use std::collections::VecDeque;

/// What is asked and what was told, with as much room for the one as for the other.
pub struct Lists<A, R> {
    pub(crate) asked: VecDeque<A>,
    pub(crate) told: VecDeque<R>,
    /// The place of the first that was told.
    pub(crate) place: u64,
    ghost room: { deque_capacity asked ≡ deque_capacity told },
    ghost few: { deque_capacity asked ≤ 2 ^ 16 },
    ghost early: { place + deque_len told ≤ 2 ^ 50 },
}

/// Acts that a pass makes in a row, and the replies that came. Its room is taken once, when it is made.
pub struct ActRow<S: Source, K: Sink, C> {
    pub(crate) lists: Lists<Asked<S, K, C>, Told<S, K, C>>,
}
