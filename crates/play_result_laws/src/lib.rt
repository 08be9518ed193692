//! What a play leaves behind that was done whole, its files, its log and its summary, as definitions; and that the bytes in a plan's links
//! and sinks are those of its plain function. Stated on functions that do nothing.
#![tactic(auto)]

mod gates;
mod results;
mod streams;

pub use gates::law_of_gates;
pub use results::{law_of_no_acts, law_of_one_log};
pub use streams::{law_of_plan_contents, law_of_plan_openings, law_of_plan_texts};
