//! The thread that conducts a play by calls through a board.
#![tactic(auto)]

mod asking;
mod changing;
mod conducting;
mod link_ends;
mod looking;

pub use conducting::{ConductingPass, Round};
