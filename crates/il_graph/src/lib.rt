//! A graph of audio components: the calls of the integration layer's core, each a step of the machine.
//!
//! What each call of `Graph` refuses, and in which order, stands in its clause `step`, by the definitions of `il_machine`;
//! `docs/MACHINE.md` tells it in words.
#![tactic(auto)]

mod claimed;
mod freed;
mod graph;
mod no_file;

pub use audio_parts::PartFile;
pub use claimed::{Claimed, Done, Work};
pub use freed::Freed;
pub use graph::Graph;
pub use header_core::Header;
pub use il_machine::{Acted, Granted, Mode, PortView, Preempted, Progress, Why};
pub use no_file::{EmptyFile, NoFile, Nothing};
pub use note_queues::{Call, Client, ProgressClient, Taken, Took};
pub use omx_types::{
    CallError, Command, Completion, Event, Format, Handle, OmxError, Param, ParamKey,
    PortDefinition, PortId, PortSel, State, Supplier, Version,
};

/// Want of memory.
pub type OutOfMemory = std::alloc::AllocError;
