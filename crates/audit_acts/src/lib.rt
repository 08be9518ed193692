//! The lines of a play's log as acts of a graph: what a line asks of it, and the text of what it replies.
#![tactic(auto)]

mod asking;
mod players;
mod replying;
mod same;

pub use asking::act_of;
pub use players::{Player, player_of};
pub use replying::text_of;
pub use same::is_same_reply;
