//! The lines of what passes of a turnstile did, as a history of turns goes on.
#![tactic(auto)]

mod laws;

pub use laws::law_of_pass_lines;
