//! The order of what the client of a play asks for, line by line of its log: which send, drop, setting or tunnel may come next.
#![tactic(auto)]

mod ends;
mod laws;
mod lines;
mod order;
mod steps;

pub use ends::LinkEnds;
pub use laws::{law_of_one_order, law_of_order};
pub use order::{Change, Order};
