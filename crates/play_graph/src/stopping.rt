//! The graph of a play is brought to rest from each moment in which every late source's link has its tunnel, also after a step that
//! failed, and taken apart: the notes of each component are taken, each component is made Invalid, the headers of each link go home
//! and are released, and then the graph ends, which gives the files back. None of these acts is refused.

mod clearing;
mod components;
mod ending;
mod laws;
mod noting;

pub use ending::stop_graph;
pub use laws::law_of_stops;
