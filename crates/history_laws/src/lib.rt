//! What must hold of the machine's steps and of its runs. Stated on functions that do nothing.
#![tactic(auto)]

mod histories;
mod runs;

pub use histories::{
    law_of_client_headers, law_of_closed_runs, law_of_given, law_of_keys, law_of_memory,
    law_of_queues, law_of_settled, law_of_steps_determined, law_of_trails, law_of_works,
};
pub use runs::{law_of_deliveries, law_of_handles, law_of_joined_runs, law_of_objects};
