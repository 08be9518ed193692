//! The calls of a clock with their moments, its requests, its notes, and its refusals.

use thiserror::Error;

/// What a clock is asked to do.
#[derive(Clone, Copy)]
pub enum ClockAct {
    /// Runs from that media time.
    Start(u64),
    Stop,
    /// How far the media time goes in a moment, in 65,536ths.
    Scale(u32),
    /// Waits for the ports of the mask.
    Wait(u8),
    /// The port tells its first media time.
    Port { port: u32, media: u64 },
    /// Asks for a note at that media time.
    Ask { id: u64, media: u64 },
    Cancel(u64),
    /// Lets time pass alone.
    Pass,
}

/// A call at a wall moment.
#[derive(Clone, Copy)]
pub struct TimedAct {
    pub wall: u64,
    pub act: ClockAct,
}

/// A request that waits for its media time.
#[derive(Clone, Copy, Default)]
pub struct Request {
    pub id: u64,
    pub media: u64,
}

/// A note: the request of that id was fulfilled at that wall moment.
#[derive(Clone, Copy, Default)]
pub struct Fulfilled {
    pub id: u64,
    pub wall: u64,
}

/// Why a call is refused.
#[derive(Clone, Copy, Debug, PartialEq, Eq, Error)]
pub enum ClockRefusal {
    /// The wall moment is before that of the last accepted call.
    #[error("Backwards")]
    Backwards { last: u64 },
    #[error("BadScale")]
    BadScale,
    #[error("BadMask")]
    BadMask,
    #[error("NotWaiting")]
    NotWaiting,
    /// A request of that id is outstanding.
    #[error("Taken")]
    Taken,
    #[error("Full")]
    Full,
    /// No request of that id is outstanding.
    #[error("Unknown")]
    Unknown,
}
