//! Files that are said to have been written: a sink that writes nothing, and compares what it is given with a file that is read.
#![tactic(auto)]

mod comparing;
mod laws;
mod writing;

pub use comparing::{Comparing, Met};
pub use laws::law_of_known_files;

/// Want of memory.
pub type OutOfMemory = std::alloc::AllocError;
