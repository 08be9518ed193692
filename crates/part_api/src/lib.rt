//! What a part of a component does in one step: `begin`, a `take` for each input with frames, `step`,
//! and a `put` for each output.
#![tactic(auto)]

mod attached;
mod laws;
mod part;

pub use attached::Attached;
pub use laws::law_of_pieces;
pub use omx_types::PartFault;
pub use part::Part;
