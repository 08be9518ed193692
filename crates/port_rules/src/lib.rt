//! One component beside the ports and headers of its graph: the tests of its ports, what it is refused, what is due at it, and what
//! the first due thing makes of it.
#![tactic(auto)]

mod buffers;
mod claiming;
mod due;
mod happening;
mod making;
mod terms;
mod tunnels;

pub use buffers::{
    allocate_refusal, empty_refusal, fill_refusal, free_buffer_refusal, has_no_block, is_taking,
    unpopulate, use_refusal,
};
pub use claiming::{NoWork, claim_idle, gives_header, must_announce};
pub use due::{Due, due_in};
pub use happening::happen_in;
pub use making::{free_refusal, set_parameter_refusal};
pub use terms::{is_accepting, is_leaving, is_open, is_returning};
pub use tunnels::{drop_refusal, setup_refusal, widened};
