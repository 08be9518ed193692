//! The two compandings of ITU-T G.711, A-law and mu-law, which code a sample of 16 bits by 8: a sample at a time, and a slice
//! of samples by vectors. Both are on one scale of 16 bits, A-law's 13 bits and mu-law's 14 being
//! the upper ones. Nothing here allocates.
#![tactic(auto)]

mod alaw;
mod companding;
mod curve;
mod lanes;
mod mulaw;
mod slices;

pub use alaw::{alaw_decode, alaw_decode_all, alaw_encode, alaw_encode_all};
pub use companding::Companding;
pub use mulaw::{mulaw_decode, mulaw_decode_all, mulaw_encode, mulaw_encode_all};
