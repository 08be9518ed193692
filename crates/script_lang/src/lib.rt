//! Scripts of plays and of traces: their grammars, and the first fault of a text that is none.
#![tactic(auto)]

use std::alloc::AllocError;

mod file_name;
mod form;
mod hex;
mod known;
mod laws;
mod names;
mod play_form;
mod play_known;
mod play_line;
mod play_reading;
mod play_saying;
mod read_forms;
mod read_play_forms;
mod saying;
mod script;
mod text;

pub use file_name::{FILE_NAME_BYTES, FileName};
pub use form::{TraceForm, TraceLine, TraceLines};
pub use laws::{one_outcome, one_play};
pub use play_line::{LinkLine, LinkLines, PartForm, PartLine, PartLines, Weights};
pub use script::{Script, ScriptError, ScriptFault, read_script};
pub use text::Text;

pub type OutOfMemory = AllocError;
