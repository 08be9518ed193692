//! The replies to acts, without headers, and why an act changed nothing.

use crate::{Name, PortName};
use il_machine::PortView;
use omx_types::{Event, OmxError, State};

/// Why an act changed nothing, with ports by name.
#[derive(Clone, Copy)]
pub enum TextWhy {
    NoCommand,
    Pending(State),
    PortBusy(u32),
    NotSupplier,
    IsSupplier,
    NotAccepting(PortName),
    NoBlock,
    NoNumber,
    NotLeaving,
    NoHeader,
    NotRunning(PortName),
    NoWaiter,
    Short { have: u32, need: u32 },
    Enough { have: u32, need: u32 },
    NoVictim,
    Events { room: u32, need: u32 },
    /// A work of the component is out.
    WorkOut,
    /// The component isn't Executing, or one of its ports isn't open.
    ComponentNotRunning,
    /// The part has ended.
    PartEnded,
    /// The port's format is to be set first.
    PortHeld(u32),
    /// The input has no header to take frames from.
    NoData(u32),
    /// The output has no header to put frames into.
    NoRoom(u32),
}

/// A reply that names no header.
#[derive(Clone, Copy)]
pub enum TextReply {
    /// A call that has no reply of its own was done.
    Done,
    Error(OmxError),
    State(State),
    Port(PortView),
    /// Which end of a tunnel makes its headers.
    Supplier { input: bool },
    /// A component did something.
    Did,
    /// A component's work is out.
    Work,
    /// A work came back, with the frames that its step did.
    Finished { frames: u32 },
    Idle(TextWhy),
    /// No note waits.
    NoNote,
    /// The client holds a note already.
    Busy,
    Event(Event),
    /// The header isn't with the client.
    NotHeld,
    /// The bytes are more than the header's size.
    TooLong,
    /// No work is held.
    NotOut,
    /// The component has its units.
    Granted(Name),
    /// The component loses its units.
    Victim(Name),
}
