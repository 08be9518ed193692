//! What the threads of a play know beside the board that they share: the components, made once of the plan, and signs by which they tell
//! each other when it is worth asking.
#![tactic(auto)]

use std::alloc::AllocError;

mod seat;
mod seats;
mod signs;

pub use seat::Seat;
pub use seats::seats_of;
pub use signs::Signs;

pub type OutOfMemory = AllocError;
