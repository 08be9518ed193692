//! What is known of an attached file: whether it is read or written, its frames, and its format if it is read.

use omx_types::Format;

/// The frames for which a file came, and the format of one that is read.
#[derive(Clone, Copy)]
pub enum Attached {
    From { format: Format, frames: u64 },
    To { frames: u64 },
}
