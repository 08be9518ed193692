//! The course of a play: its files are opened, it is run, its files are closed, its log is written, and its sinks are told. The first fault
//! ends it, and is told with its cause.
#![tactic(auto)]

mod course;
mod player;
mod settling;
mod summary;

pub use course::{close_run, play_script};
pub use player::{Player, RunFault};
pub use settling::{Ran, log_fault, parts_of};
pub use summary::{SinkLine, Summary, summary_of};
