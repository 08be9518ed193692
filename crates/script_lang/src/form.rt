//! The forms of a trace script's lines, a line with its number and words, and the list of the lines.

ghost use Rattle.std.specs.Prelude.{◌≡◌};

use crate::Text;
use act_text::{Name, PortName, TextAct};
use std::marker::Model;

/// What a line of a trace script says, by its form.
#[derive(Drop)]
pub enum TraceForm {
    /// An act that names neither a header nor what a component is made of.
    Act(TextAct),
    Get {
        component: Name,
        kind: Text,
    },
    Alloc {
        header: Name,
        port: PortName,
    },
    UseBuf {
        header: Name,
        port: PortName,
        length: u32,
    },
    FreeBuf {
        header: Name,
        port: PortName,
    },
    Etb {
        header: Name,
        port: PortName,
        bytes: Text,
        eos: bool,
    },
    Ftb {
        header: Name,
        port: PortName,
    },
}

/// A line of a trace script: its number, what it says, and its words, parted by one space.
#[derive(Drop)]
pub struct TraceLine {
    pub line: u32,
    pub form: TraceForm,
    pub text: Text,
}

/// The lines of a trace script, in order.
#[derive(Drop)]
pub struct TraceLines {
    lines: Vec<TraceLine>,
}

impl Model for TraceLines {
    ghost use Rattle.std.specs.Prelude.{List};
    ghost use Rattle.script_lang.specs.declared.form.TraceLine.{TraceLine};

    ghost Value = { List TraceLine };

    ghost view = { λ lines. lines.lines.items };
}

impl TraceLines {
    /// The lines of a trace, in their order.
    pub fn from_vec(lines: Vec<TraceLine>) -> TraceLines
        ensures { result ≡ lines.items }
    {
        TraceLines { lines }
    }

    /// The lines, to be read.
    pub fn as_slice(&self) -> &[TraceLine]
        ensures { result.now ≡ self.now }
    {
        self.lines.as_slice()
    }
}
