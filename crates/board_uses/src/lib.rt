//! How a board is used: by any pass notes are delivered to client objects, works are done while no turn is held, and a component is asked
//! in one row.
#![tactic(auto)]

mod delivery;
#[cfg(test)]
mod tests;
mod visiting;
mod working;

pub use delivery::{Delivered, deliver};
pub use visiting::{Visited, visit};
pub use working::{Worked, work_once};
