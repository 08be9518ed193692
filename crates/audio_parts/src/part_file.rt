//! A file for a part: a source with its format, or a sink, and how many frames are read or written.

use omx_types::Format;

/// A file for a part, and how many frames of it the part reads or writes.
#[derive(Drop)]
pub enum PartFile<S, K> {
    From { src: S, format: Format, frames: u64 },
    To { snk: K, frames: u64 },
}
