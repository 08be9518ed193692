//! A link of a play: its line, its two components and their ports, and the number and size of its headers.

/// A link of a play, with its two components by their places in script order.
#[derive(Clone, Copy)]
pub struct Joint {
    /// The number of its script line.
    pub line: u32,
    pub giver: u32,
    /// The port of the giver.
    pub output: u32,
    pub taker: u32,
    /// The port of the taker.
    pub input: u32,
    /// Headers.
    pub count: u32,
    /// Bytes of a header.
    pub size: u32,
}
