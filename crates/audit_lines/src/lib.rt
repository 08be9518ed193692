//! The lines of a log, as an audit takes them: a text is cut into lines, and a line is read.
#![tactic(auto)]

mod laws;
mod read;
mod split;

pub use laws::{law_of_log_lines, law_of_short_lines};
pub use read::{ReadLine, read_line};
pub use split::next_line;
