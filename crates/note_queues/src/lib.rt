//! The queues of one component: commands that wait to be run, notes that wait to be taken, and the client
//! object to which notes are told.
//!
//! Each event has a place among 256. A queued command reserves places for its events, and the owner of the
//! queues holds further ones by `hold_reserve`; what is left is the room. Commands and notes stand in rings of their greatest
//! length, so no call but `new` takes memory, and none moves another note than its own.
#![tactic(auto)]

mod client;
mod laws;
mod notes;
mod taken;

pub use client::{Client, HolderClient, ProgressClient, progress_after};
pub use laws::law_of_room;
pub use notes::Notes;
pub use taken::{Call, Full, QueuedCommand, Taken, Took};

/// Want of memory.
pub type OutOfMemory = std::alloc::AllocError;
