//! Commands to a component, their completions, a component's events, and the notes queued for a client.

use crate::{Handle, OmxError, State};

/// One port of a component, or all of its ports.
#[derive(Clone, Copy, Debug, PartialEq, Eq)]
pub enum PortSel {
    One(u32),
    All,
}

/// A command to a component (OpenMAX IL 1.1.2, `OMX_COMMANDTYPE`). It is queued, and its end is told by an event.
#[derive(Clone, Copy, Debug, PartialEq, Eq)]
pub enum Command {
    StateSet(State),
    Flush(PortSel),
    PortDisable(PortSel),
    PortEnable(PortSel),
    MarkBuffer {
        port: u32,
        target: Handle,
        value: u64,
    },
}

/// The command that an event tells the end of. The numbers are those of ports.
#[derive(Clone, Copy, Debug, PartialEq, Eq)]
pub enum Completion {
    State(State),
    Flush(u32),
    Disable(u32),
    Enable(u32),
    Mark(u32),
}

/// What a component tells its client (OpenMAX IL 1.1.2, `OMX_EVENTTYPE`).
#[derive(Clone, Copy, Debug, PartialEq, Eq)]
pub enum Event {
    CmdComplete(Completion),
    Error(OmxError),
    Mark(u64),
    PortSettingsChanged(u32),
    BufferFlag { port: u32, flags: u32 },
    ResourcesAcquired,
}

/// What is queued for a client: an event, or a header that comes back to it. The number is the header's.
#[derive(Clone, Copy, Debug, PartialEq, Eq)]
pub enum Note {
    Told(Event),
    EmptyDone(u64),
    FillDone(u64),
}
