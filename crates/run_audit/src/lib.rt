//! The replay of a play's log on a graph: the act of a line is asked, and the reply compared with the line's.
#![tactic(auto)]

mod acts;
mod answering;
mod auditing;
mod ending;
mod keeping;
mod laws;
mod leaving;
mod opening;
mod passing;
mod replay;
mod replaying;
mod returning;
mod settling;
mod telling;
mod walking;

pub use answering::{Answered, answer};
pub use auditing::{AuditFault, audit};
pub use laws::law_of_every_text;
pub use replay::{Passed, Replay};
pub use returning::Back;
pub use walking::Walked;
