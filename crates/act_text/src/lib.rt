//! Acts and replies as texts, both ways. Nothing but the appended text takes memory.
#![tactic(auto)]

use std::alloc::AllocError;

mod act;
mod laws;
mod name;
mod parts;
mod put;
mod put_acts;
mod put_replies;
mod read_acts;
mod read_events;
mod read_replies;
mod read_whys;
mod reply;
mod text;
mod words;

pub use act::TextAct;
pub use laws::law_of_texts;
pub use name::{Name, PortName};
pub use parts::{name_in, port_in};
pub use read_acts::act_in;
pub use reply::{TextReply, TextWhy};
pub use text::{ActText, put_act, put_reply, read_act};

pub type OutOfMemory = AllocError;
