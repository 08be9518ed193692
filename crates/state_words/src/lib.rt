//! A word for each component: its state and how often it changed, shown by one and read by many without waiting.
#![tactic(auto)]

mod code;
mod threads;
mod view;
mod words;

pub use words::{OutOfMemory, Reader, Shower, StateWords};
