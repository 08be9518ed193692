//! A pass of a board with the lines of its own calls: what each thread of a play keeps.
#![tactic(auto)]

mod book;
mod laws;
mod moving;
mod noting;
mod quiet;
mod saying;
mod still;

pub use book::Book;
pub use laws::law_of_said_lines;
pub use quiet::{QuietAct, QuietReply};
pub use saying::SLOTS;
pub use still::stand_still;
