//! Inputs made from a number: two WAV files, and a script that plays them.
#![tactic(auto)]

mod making;
mod samples;
mod script;

pub use making::make;
