//! The plain types of the integration layer: states, commands, events, errors, handles, formats,
//! parameters, and the faults of the program. None of them takes memory.
#![tactic(auto)]

mod command;
mod error;
mod fault;
mod format;
mod handle;
mod kind;
mod limits;
mod param;
mod state;

pub use command::{Command, Completion, Event, Note, PortSel};
pub use error::{CallError, OmxError};
pub use fault::{AuditWhy, Fault, PacketsWhy, PartFault, ScriptWhy, Status, WavFault, Which};
pub use format::Format;
pub use handle::{Handle, PortId};
pub use kind::Kind;
pub use limits::{BLOCK_BYTES, BLOCKS, ONE};
pub use param::{Param, ParamKey, PortDefinition, Supplier, Version};
pub use state::State;
