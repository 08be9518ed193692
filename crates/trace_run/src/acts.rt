//! The acts that name neither a header nor the kind of a component, each with its reply.

mod commands;
mod components;
mod flow;
mod parameters;
mod replies;
mod tunnels;
mod units;

pub use commands::{run, send};
pub use components::{free, port, state};
pub use flow::{back, over, release, supply};
pub use parameters::{set_config, set_definition, set_parameter};
pub use tunnels::{drop_tunnel, tunnel};
pub use units::{grant, preempt};
