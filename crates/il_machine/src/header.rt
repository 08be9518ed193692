//! The state of a buffer header: its ports, its home, its owner, and the list in which it waits.

use crate::PortKey;

/// Where a header is made and comes back to: the client, or the port that supplies its tunnel.
#[derive(Clone, Copy)]
pub enum Home {
    Client,
    Port(PortKey),
}

/// Who has a header. A component is named by its number: its work, or its queue of notes.
#[derive(Clone, Copy)]
pub enum Owner {
    Client,
    Port(PortKey),
    Work(u64),
    Notice(u64),
}

/// The list of its port in which a header waits: to be worked on, or to be sent. Out is no list.
#[derive(Clone, Copy)]
pub enum Queue {
    Out,
    Todo,
    Done,
}

/// Where a header is put among those of a port.
#[derive(Clone, Copy)]
pub enum Spot {
    TodoBack,
    TodoFront,
    DoneBack,
}

/// What is known of a header beside what it carries (OpenMAX IL 1.1.2, `OMX_BUFFERHEADERTYPE`).
#[derive(Clone, Copy)]
pub struct HeaderState {
    pub number: u64,
    /// The port that it was made for; the supplier's of a tunnel.
    pub port: PortKey,
    /// The other port of the tunnel.
    pub peer: Option<PortKey>,
    pub home: Home,
    pub owner: Owner,
    pub queue: Queue,
    /// In bytes.
    pub size: u32,
    /// Whether its memory is the client's own.
    pub client_memory: bool,
}
