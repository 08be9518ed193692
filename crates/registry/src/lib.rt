//! The names of components, and the handles of a graph's live components.
#![tactic(auto)]

mod entry;
mod handles;
mod laws;
mod names;

pub use handles::{Refuse, Registry};
pub use laws::law_of_stale_handles;
pub use names::find;
