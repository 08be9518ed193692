//! What a step of a component's part is in a world of a play, and how long the streams are that a part gives. Stated on functions that do
//! nothing.
#![tactic(auto)]

mod part_sizes;
mod part_steps;

pub use part_sizes::law_of_sizes;
pub use part_steps::{law_of_play_claims, law_of_play_finishes};
