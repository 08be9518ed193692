//! A component of a play, as the threads see it that play.

use act_text::Name;
use omx_types::Handle;

/// A component of a play.
#[derive(Clone, Copy)]
pub struct Seat {
    pub handle: Handle,
    pub name: Name,
    /// How many of its ports are inputs: those from 0 on.
    pub inputs: u32,
    pub ports: u32,
    /// A bit for each component at the other end of a link, by their numbers.
    pub near: u32,
}
