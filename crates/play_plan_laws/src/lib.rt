//! A plan as the cast of a play, and its graph once it is made as the world in which that play begins. Stated on functions that do
//! nothing.
#![tactic(auto)]

mod assemblies;
mod plans;

pub use assemblies::law_of_assemblies;
pub use plans::{law_of_casts, law_of_limits, law_of_scripts};
