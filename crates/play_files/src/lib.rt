//! The files of a play: opened by its plan, by the places of their components, and closed again. The first fault ends the opening,
//! and is told with its cause.
#![tactic(auto)]

mod closing;
mod faults;
mod fitting;
mod laws;
mod opening;
mod sinks;
mod sources;

pub use closing::close_files;
pub use faults::source_fault;
pub use fitting::fit_to_sources;
pub use laws::{law_of_fitted_plans, law_of_names};
pub use opening::{Opened, open_files};
pub use sinks::{put_file, written_name};
