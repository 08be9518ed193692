//! All that a graph of components keeps, and the changes of it that a call is made of. Each change is one of every world of the
//! machine that the graph stands for.
#![tactic(auto)]

mod attaching;
mod buffers;
mod claiming;
mod closing;
mod commanding;
mod core_graph;
mod ending;
mod finishing;
mod laws;
mod looking;
mod making;
mod noting;
mod other_end;
mod passing;
mod picking;
mod supplying;
mod tunnels;
mod units;

pub use core_graph::Core;
