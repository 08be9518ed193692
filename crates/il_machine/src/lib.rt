//! The machine that a graph of components is: its worlds, what each call may answer, and the world
//! that each answer leaves. The definitions stand in `specs/`; here are the plain types that they and
//! the crates above share. `machine_laws` has what must hold of the definitions.
//!
//! A world has all that claims, finishes, units, files and late sources need; the acts themselves join later.
#![tactic(auto)]

mod answer;
mod header;
mod port;

pub use answer::{Acted, Cause, Granted, Pending, Preempted, Progress, Why};
pub use header::{HeaderState, Home, Owner, Queue, Spot};
pub use port::{Link, Mark, Mode, Port, PortKey, PortSetting, PortState, PortView};
