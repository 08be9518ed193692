//! Operations on pieces of samples of 16 bits, each item by item, from bytes to bytes: gain, mixing
//! and clamping. A gain or a weight of 4096 is a factor of 1. Nothing here allocates.
#![tactic(auto)]

mod bytes;
mod effects;
mod items;

pub use bytes::{lanes_at, put_lanes, put_sample, sample_at};
pub use effects::{clamp_into, copy_into, gain_into, mix_into};
