//! The plan of a play: its links, the order in which its components are placed, and what goes through each link by the heads of its files.
#![tactic(auto)]

use std::alloc::AllocError;

mod copying;
mod counting;
mod fitting;
mod flowing;
mod joining;
mod kinds;
mod placing;
mod plan;
mod threads;

pub use kinds::kind_of;
pub use plan::Plan;
pub use play_forms::{Flow, Joint, PlanFault};

pub type OutOfMemory = AllocError;
