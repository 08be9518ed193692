//! Runs of worlds without what no act of a play looks at: the key of headers and the slots of handles.
#![tactic(auto)]

mod laws;

pub use laws::{law_of_bare_acts, law_of_bare_returns, law_of_bare_runs};
