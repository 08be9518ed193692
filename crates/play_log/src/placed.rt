//! What a log of one of several passes keeps of a line.

use crate::line::Line;

/// A line, and how many acts of all passes were made before its own, in sixteen bytes.
#[derive(Clone, Copy)]
pub struct Placed {
    pub place: u64,
    pub line: Line,
}
