//! How the graph of a play is made, act by act, how it is taken apart once all its components rest, and how it is brought to rest at any
//! time. No act of these is refused. Stated on functions that do nothing.
#![tactic(auto)]

mod assembling;
mod dismantling;
mod halting;

pub use assembling::{law_of_assembling, law_of_building, law_of_building_stages};
pub use dismantling::law_of_dismantling;
pub use halting::law_of_halting;
