//! The parameters and configs of one component: the definitions and preferences of its ports, its
//! priority, and its gain or weights.
#![tactic(auto)]

mod kinds;
mod laws;
mod limits;
mod params;

pub use kinds::{inputs, outputs, ports};
pub use laws::{law_of_all_else, law_of_get_after_set};
pub use limits::{has_more_bytes, is_same_format, is_too_large, is_within_limits};
pub use params::Params;
