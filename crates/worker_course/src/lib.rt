//! A play by workers, from its script to its log.
#![tactic(auto)]

mod ending;
mod faults;
mod laws;
mod playing;
mod running;
mod seating;

pub use playing::play_workers;
