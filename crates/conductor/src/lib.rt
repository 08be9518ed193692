//! The conductor of a play: when every component is told to go on, and when the link of a late source is changed.
#![tactic(auto)]

use std::alloc::AllocError;

mod casting;
mod changing;
mod conductor;
mod hearing;
mod laws;
mod phase;
mod sending;
mod threads;

pub use conductor::Conductor;
pub use hearing::{tells_disable, tells_enable};
pub use laws::law_of_phases;
/// The client object of a component of a play: it may be given no headers.
pub use note_queues::ProgressClient as PlayClient;
pub use phase::{ChangeStep, LateLink, Phase};
pub use sending::all_told;

pub type OutOfMemory = AllocError;
