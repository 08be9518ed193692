//! A play as a model, that knows of no handle, queue or memory: what flows through a network of components joined by links, as numbers and
//! lists alone, and a conductor that brings all components up and down again around it. Stated on functions that do nothing.
#![tactic(auto)]

mod flows;
mod plays;

pub use flows::{law_of_account, law_of_enabled_moves, law_of_ending, law_of_streams};
pub use plays::{law_of_ends, law_of_over, law_of_plays, law_of_return};
