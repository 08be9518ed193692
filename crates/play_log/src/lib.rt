//! The log of a play: a numbered line for each act of its run, with the pass that made it, and what such a text names.
#![tactic(auto)]

mod entry;
mod form;
mod gathered;
mod laws;
mod line;
mod listing;
mod log;
mod log_text;
mod pages;
mod pass_log;
mod pieces;
mod placed;
pub mod texts;
mod words;

pub use entry::Entry;
pub use laws::{law_of_lines, law_of_logs, law_of_merged_lines};
pub use line::Line;
pub use log::Log;
pub use log_text::{LogText, write_log};
pub use pass_log::PassLog;
pub use pieces::Pieces;
pub use placed::Placed;

/// Want of memory.
pub type OutOfMemory = std::alloc::AllocError;
