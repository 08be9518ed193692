//! Threads that play a graph by a board: a worker for each gate, and one that conducts.
#![tactic(auto)]

mod hand;
mod hiring;
mod kit;
mod meeting;
mod ran;
mod room;
mod running;
mod whole;

pub use ran::Ran;
pub use whole::play_by_workers;
