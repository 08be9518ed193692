//! The work of a component: the headers for one step of its part with the part, and the step, which is done away from the graph.
#![tactic(auto)]

mod done;
mod frames;
mod laws;
mod layout;
mod making;
mod parts;
mod running;
mod seat;
mod work;

pub use done::{Brought, Done};
pub use laws::law_of_sameness;
pub use seat::{Desk, Seat};
pub use work::Work;
