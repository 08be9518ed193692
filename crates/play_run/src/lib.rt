//! A play on one thread: a graph with the components of a plan, and the conductor that brings them up and down again. The
//! graph's calls make the acts of the play, and the loop of `play_loop` makes them until it is over.
#![tactic(auto)]

mod changing;
mod components;
mod failure;
mod handles;
mod laws;
mod lines;
mod links;
mod one_thread;
mod player;
mod playing;
mod sending;
mod stopping;
mod words;

pub use failure::{Failure, Stop};
pub use laws::law_of_play_logs;
pub use one_thread::OneThread;
pub use playing::Playing;
