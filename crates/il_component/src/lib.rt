//! One component's record: its settings, its state, its ports, its queues and its client object. Each change of it is one of the
//! machine's, and none takes memory but the making.
#![tactic(auto)]

mod changes;
mod client;
mod commands;
mod component;
mod files;
mod formats;
mod part_changes;
mod port_changes;
mod units;
mod work_out;
mod works;

pub use component::Component;
