//! What a log names whose lines pass the tests of an audit. Stated on functions that do nothing; the check of logs stands on them.
#![tactic(auto)]

mod admitted;
mod audits;
mod replays;

pub use admitted::law_of_admitted_lines;
pub use audits::law_of_audits;
pub use replays::{law_of_replays, law_of_verdicts};
