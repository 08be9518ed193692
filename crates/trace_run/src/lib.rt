//! Runs a trace script on a graph, and writes every answer.
#![tactic(auto)]

mod acts;
mod asking;
mod client;
mod closing;
mod desk;
mod gathering;
mod headers;
mod lines;
mod names;
mod notes;
mod printing;
mod reply;
mod slots;
mod tracing;
mod works;

pub use tracing::trace;

/// Want of memory.
pub type OutOfMemory = std::alloc::AllocError;
