//! How a graph is used by whoever holds it: a component's work is done away from the graph, and comes back.
#![tactic(auto)]

mod client;
mod playing;
#[cfg(test)]
mod tests;
mod working;

pub use client::deliver;
pub use playing::copy_file;
pub use working::work_once;
