//! The header of a buffer: a value that can't be let go and must be spent. Contracts see its content as a list.
//!
//! A header keeps its memory from `new` until `into_memory` or `into_store` gives it back: the client's own, or a block of the
//! graph's region.
//! No call takes memory.
#![tactic(auto)]

mod header;
mod key;
mod memory;
mod threads;

pub use header::{Header, TooLong};
pub use key::Key;
pub use memory::{Memory, Store};
