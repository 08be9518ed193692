//! Flush and waiting marks of a port, over its lists of headers.
//!
//! A flush begins at the port's component, which keeps that the port flushes: no header moves then. Its headers go back one by one,
//! until it has none but those at home, which are reset. A mark waits at the component until a header can carry it.
#![tactic(auto)]

mod flushing;
mod marking;

pub use flushing::{flush_settled, reset_home};
pub use marking::attach_mark;
