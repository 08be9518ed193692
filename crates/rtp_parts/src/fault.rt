//! The faults of packing and unpacking, and those that an unread head or a stopped read comes to.

use omx_types::WavFault;
use outside_io::ReadStop;
use thiserror::Error;

/// Why packing or unpacking ended.
#[derive(Clone, Copy, Debug, PartialEq, Eq, Error)]
pub enum RtpFault {
    /// The head of the WAV file, or the size of either file.
    #[error("{0}")]
    Head(WavFault),
    #[error("read fault")]
    Read,
    #[error("write fault")]
    Write,
    /// The source gave nothing at `at`, below its `size`.
    #[error("short at {at} of {size}")]
    Short { at: u64, size: u64 },
    #[error("not G.711 mono 8000")]
    WrongFormat,
    #[error("not a packet file")]
    NotPackets,
    #[error("no packets")]
    NoPackets,
    #[error("too long")]
    TooLong,
    #[error("out of memory")]
    OutOfMemory,
}

impl From<WavFault> for RtpFault {
    ghost use Rattle.std.specs.Prelude.{◌≡◌};
    ghost use Rattle.rtp_parts.specs.Answers.{fault_of_head};

    ghost from_gives = { λ unread fault. fault ≡ fault_of_head unread };

    fn from(unread: WavFault) -> RtpFault {
        match unread {
            WavFault::Read => RtpFault::Read,
            WavFault::Short { at, size } => RtpFault::Short { at, size },
            _ => RtpFault::Head(unread),
        }
    }
}

impl From<ReadStop> for RtpFault {
    ghost use Rattle.std.specs.Prelude.{◌≡◌};
    ghost use Rattle.rtp_parts.specs.Answers.{fault_of_stop};

    ghost from_gives = { λ stop fault. fault ≡ fault_of_stop stop };

    fn from(stop: ReadStop) -> RtpFault {
        match stop {
            ReadStop::Failed => RtpFault::Read,
            ReadStop::Short { at, size } => RtpFault::Short { at, size },
        }
    }
}
