//! Heads of WAV files with signed 16-bit PCM, and with ITU-T G.711 A-law and mu-law: read and written.
//! Nothing here takes memory.
#![tactic(auto)]

mod chunks;
mod filling;
mod formats;
mod heads;
mod laws;
mod writing;

pub use heads::{WavHead, read_head};
pub use laws::{head_again, one_answer};
pub use writing::head_bytes;
