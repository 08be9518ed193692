//! The graph of a play is made from its plan and its files: its components in script order, what is set of them, their files,
//! and the tunnels between them. And it is taken apart again, which gives the files back. None of these acts is refused; only
//! memory can be wanted, before a file is touched.
#![tactic(auto)]

mod components;
mod ending;
mod ends;
mod factors;
mod filing;
mod freeing;
mod handles;
mod link_end;
mod making;
mod names;
mod parting;
mod stopping;
mod tunnels;

pub use ending::end_graph;
pub use handles::{count, handle, joint, link_count};
pub use il_graph::OutOfMemory;
pub use link_end::{End, index_at, is_input, place_at};
pub use making::make_graph;
pub use stopping::{law_of_stops, stop_graph};
