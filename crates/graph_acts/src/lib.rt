//! The calls of a graph as values: what is asked in one turn, what is answered, and what goes out of the graph and in with it.
#![tactic(auto)]

mod act;
mod buffers;
mod claimed;
mod handles;
mod laws;
mod lent;
mod looks;
mod notes;
mod quiet;
mod served;
mod works;

pub use act::{Act, Reply};
pub use claimed::LentClaim;
pub use lent::{DoneWork, LentWork};
pub use served::Served;
