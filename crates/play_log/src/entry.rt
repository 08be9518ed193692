//! An act with its reply, the pass that made it, and its place among the acts of all passes.

use act_text::ActText;

/// An act of a play, with its reply.
#[derive(Clone, Copy)]
pub struct Entry {
    /// How many acts of all passes were made before it.
    pub place: u64,
    /// Who made it: 0 is the thread that the play was called on, 1 to 8 are its workers.
    pub pass: u32,
    pub act: ActText,
}
