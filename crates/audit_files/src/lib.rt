//! The files of a play that was done, for a check of its log: those that it read are opened as a play opens them, and with each file that it
//! wrote what is given to its sink is compared. The first fault ends the opening, and is told with its cause.
#![tactic(auto)]

mod closing;
mod comparing;
mod opening;

pub use closing::close_compared;
pub use opening::open_compared;
