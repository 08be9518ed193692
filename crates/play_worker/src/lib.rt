//! A worker of a play: a pass with the lines of its own calls, and a gate. It goes round over the components, moves what can be moved at
//! each, and does the steps of their parts.
#![tactic(auto)]

mod attending;
mod failure;
mod gate;
mod moving;
mod rounds;
mod seeing;
mod stepping;
mod stopping;
mod worker;

pub use failure::Failure;
pub use gate::{Gate, NoGate};
pub use stopping::Stopped;
pub use worker::Worker;
