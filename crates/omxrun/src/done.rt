//! What the commands `make`, `pack`, `unpack` and `audit` come to where they were done whole.

use rtp_parts::{Packed, Unpacked};

/// What a command that makes files, turns one into another, or checks a log, prints once it was done whole.
#[derive(Clone, Copy)]
pub enum Done {
    /// Files of that many frames were made.
    Made { frames: u64 },
    /// A WAV file was cut into packets.
    Packed(Packed),
    /// Packets were put together as a WAV file.
    Unpacked(Unpacked),
    /// A log names a run of that many acts.
    Audited { acts: u64 },
}
