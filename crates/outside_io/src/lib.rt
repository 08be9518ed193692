//! Sources, sinks and the media that opens them by name.
#![tactic(auto)]

mod calls;
mod entries;
mod fails;
mod media;
mod memory_media;
mod memory_sink;
mod memory_source;
mod moving;
mod named;
mod plans;
mod sink;
mod source;
mod whole;
mod writing;

pub use fails::{Fail, FailKind, FileName};
pub use media::{Media, Refused};
pub use memory_media::MemoryMedia;
pub use memory_sink::MemorySink;
pub use memory_source::MemorySource;
pub use moving::{PumpFault, ReadStop, pump, read_exact, write_all};
pub use sink::Sink;
pub use source::{Failed, Source};
pub use whole::{Unread, read_whole, write_whole};
pub use writing::Writing;

/// Want of memory.
pub type OutOfMemory = std::alloc::AllocError;
