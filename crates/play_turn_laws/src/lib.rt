//! The turns of a play and its conductor: what each call comes to with its whole close-out, what the conductor answers and knows, where a
//! play begins, and where it stands once it is over. Stated on functions that do nothing.
#![tactic(auto)]

mod conductors;
mod plays;
mod turns;

pub use conductors::{law_of_play_castings, law_of_play_conductors, law_of_play_knowledge};
pub use plays::{law_of_play_beginnings, law_of_play_ends};
pub use turns::{
    law_of_component_turns, law_of_conducted_plays, law_of_conducted_turns, law_of_link_turns,
    law_of_play_turns,
};
