//! What a play is before anything moves: which plans are valid, the faults of those that aren't, and what a plan makes of its files.
//! Definitions that stand in `specs/`, below the planning, the conductor and the play.
#![tactic(auto)]

mod flow;
mod joint;
mod laws;
mod plan_fault;

pub use flow::Flow;
pub use joint::Joint;
pub use laws::{law_of_plain, law_of_plans, law_of_rows};
pub use plan_fault::PlanFault;
