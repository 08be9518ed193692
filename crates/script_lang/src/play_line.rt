//! The lines of a play: its components by their kinds, and its links, each with its line number.

ghost use Rattle.std.specs.Prelude.{◌≡◌, ◌≤◌, length};

use crate::FileName;
use act_text::{Name, PortName};
use std::marker::Model;

/// What a component of a play is, with what its line sets.
#[derive(Drop)]
pub enum PartForm {
    Source(FileName),
    /// A source whose format is told while the play runs.
    Late(FileName),
    Decoder,
    Alaw,
    Mulaw,
    /// 0 to 65,535, where 4,096 means one.
    Gain(u32),
    /// One weight for each input, 0 to 65,535, where 4,096 means one.
    Mixer(Weights),
    /// Its outputs, 2 to 8.
    Splitter(u32),
    Sink(FileName),
}

/// The weights of a mixer, by input: 2 to 8.
#[derive(Drop)]
pub struct Weights {
    weights: Vec<u32>,
}

impl Model for Weights {
    ghost use Rattle.std.specs.Prelude.{ℕ, List};
    ghost use Rattle.std.specs.Prelude.{◌≤◌, length};

    ghost Value = { List ℕ };

    ghost view = { λ weights. weights.weights.items };

    ghost invariant = { λ weights. (2 ≤ length weights.weights.items) × (length weights.weights.items ≤ 8) };
}

impl Weights {
    /// The weights of a mixer, one for each input.
    pub fn from_vec(weights: Vec<u32>) -> Weights
        requires { (2 ≤ length weights.items) × (length weights.items ≤ 8) }
        ensures { result ≡ weights.items }
    {
        Weights { weights }
    }

    /// The weights, by the numbers of the inputs.
    pub fn as_slice(&self) -> &[u32]
        ensures weights { result.now ≡ self.now }
        ensures some { 2 ≤ length result.now }
        ensures few { length result.now ≤ 8 }
    {
        self.weights.as_slice()
    }
}

/// A line of a play that names a component, with the number of its script line.
#[derive(Drop)]
pub struct PartLine {
    pub line: u32,
    pub name: Name,
    pub form: PartForm,
}

/// A line of a play that joins an output to an input by a tunnel, with the number of its script line.
#[derive(Clone, Copy)]
pub struct LinkLine {
    pub line: u32,
    pub output: PortName,
    pub input: PortName,
    /// Headers, 1 to 32.
    pub count: u32,
    /// Bytes of a header, 1 to 4,096.
    pub size: u32,
}

/// The components of a play, in script order: 32 at most.
#[derive(Drop)]
pub struct PartLines {
    lines: Vec<PartLine>,
}

impl Model for PartLines {
    ghost use Rattle.std.specs.Prelude.{List};
    ghost use Rattle.script_lang.specs.declared.play_line.PartLine.{PartLine};
    ghost use Rattle.std.specs.Prelude.{◌≤◌, length};

    ghost Value = { List PartLine };

    ghost view = { λ lines. lines.lines.items };

    ghost invariant = { λ lines. length lines.lines.items ≤ 32 };
}

impl PartLines {
    /// The lines of the components, in their order.
    pub fn from_vec(lines: Vec<PartLine>) -> PartLines
        requires { length lines.items ≤ 32 }
        ensures { result ≡ lines.items }
    {
        PartLines { lines }
    }

    /// The lines of the components, to be read.
    pub fn as_slice(&self) -> &[PartLine]
        ensures lines { result.now ≡ self.now }
        ensures few { length result.now ≤ 32 }
    {
        self.lines.as_slice()
    }
}

/// The links of a play, in script order.
#[derive(Drop)]
pub struct LinkLines {
    lines: Vec<LinkLine>,
}

impl Model for LinkLines {
    ghost use Rattle.std.specs.Prelude.{List};
    ghost use Rattle.script_lang.specs.declared.play_line.LinkLine.{LinkLine};

    ghost Value = { List LinkLine };

    ghost view = { λ lines. lines.lines.items };
}

impl LinkLines {
    /// The lines of the links, in their order.
    pub fn from_vec(lines: Vec<LinkLine>) -> LinkLines
        ensures { result ≡ lines.items }
    {
        LinkLines { lines }
    }

    /// The lines of the links, to be read.
    pub fn as_slice(&self) -> &[LinkLine]
        ensures { result.now ≡ self.now }
    {
        self.lines.as_slice()
    }
}
