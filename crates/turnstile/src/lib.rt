//! A value that several threads use in turns, whose calls have one order.
#![tactic(auto)]

mod ends;
mod entry;
mod serve;
mod steps;
mod threads;
mod turns;
mod turnstile;
mod view;

pub use ends::OutOfMemory;
pub use entry::Entry;
pub use serve::Serve;
pub use turnstile::{Pass, Turnstile};
