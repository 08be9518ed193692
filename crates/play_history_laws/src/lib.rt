//! The laws of play histories: whoever makes the acts of a play, and in whatever order, as long as the conductor asks only for what it may
//! ask for then, each world on the way is a world of the play, also where steps fail; what a plan's play leaves in its files; and why what
//! several passes do, one of which conducts, is such a history. Stated on functions that do nothing; plays by workers and checks of logs
//! stand on them.
#![tactic(auto)]

mod conducting;
mod failed_steps;
mod fault_histories;
mod old_views;
mod plan_histories;
mod play_histories;
mod requested_steps;
mod worked_plays;

pub use conducting::{law_of_conductors, law_of_halts, law_of_looks};
pub use failed_steps::law_of_failed_steps;
pub use fault_histories::{law_of_fault_histories, law_of_told_steps};
pub use old_views::law_of_old_views;
pub use plan_histories::{
    law_of_faulty_files, law_of_plan_askings, law_of_plan_beginnings, law_of_plan_files,
};
pub use play_histories::law_of_play_histories;
pub use requested_steps::{
    law_of_printed_steps, law_of_requested_ends, law_of_requested_files, law_of_requested_steps,
};
pub use worked_plays::{law_of_left_plays, law_of_worked_plays};
