//! The work of a component comes back: by rising port its headers land, each in a list of its port or in a note, the ends of inputs are
//! kept, and the end of a sink's stream or a fault is told.
#![tactic(auto)]

mod back;
mod ending;
mod landing;
mod laws;
mod places;
mod returning;
mod step;

pub use back::Way;
pub use laws::law_of_landing;
pub use places::{Places, leave_all};
pub use step::{Step, come_back};
