//! What a log keeps of a line.

/// A line of a log but for its number, in eight bytes: the pass, and the number of its words.
#[derive(Clone, Copy)]
pub enum Line {
    Said { pass: u8, words: u16 },
    /// Behind the words stand the frames that a step did.
    Finished { pass: u8, words: u16, frames: u32 },
}
