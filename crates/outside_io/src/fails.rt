//! The failures to be injected: the file's name, the kind of call and its number, or where a source ends early.

ghost use Rattle.std.specs.Prelude.{◌≡◌, string_bytes};

use std::marker::Model;

/// A kind of call that is to fail.
#[derive(Clone, Copy)]
pub enum FailKind {
    OpenSource,
    Read,
    Seek,
    /// No failure: the source gives nothing from an offset on.
    EndAt,
    OpenSink,
    /// The opening of a sink is refused as absent.
    AbsentSink,
    Write,
    Close,
}

/// The name of a file.
#[derive(Drop)]
pub struct FileName {
    text: String,
}

impl Model for FileName {
    ghost use Rattle.std.specs.Prelude.{ℕ, List, string_bytes};

    ghost Value = { List ℕ };

    ghost view = { λ name. string_bytes name.text };
}

impl FileName {
    /// The name of a file, from its text.
    pub fn new(text: String) -> FileName
        ensures { result ≡ string_bytes text }
    {
        FileName { text }
    }

    /// The name as it was given.
    pub fn as_str(&self) -> &str
        ensures { result.now ≡ self.now }
    {
        self.text.as_str()
    }

    /// Gives the name back, and takes no memory.
    pub fn into_string(self) -> String
        ensures { string_bytes result ≡ self }
    {
        self.text
    }
}

/// The nth call of that kind on that name fails, counted from 1. For `EndAt` the source gives nothing from offset `nth` on.
#[derive(Drop)]
pub struct Fail {
    pub name: FileName,
    pub kind: FailKind,
    pub nth: u64,
}

impl Fail {
    ghost use Rattle.outside_io.specs.Fails.{is_of};

    /// That the nth call of that kind on that name fails.
    pub fn new(name: String, kind: FailKind, nth: u64) -> Fail
        ensures name { result.name ≡ string_bytes name }
        ensures kind { result.kind ≡ kind }
        ensures nth { result.nth ≡ nth }
    {
        Fail {
            name: FileName::new(name),
            kind,
            nth,
        }
    }

    /// Whether it is of that kind and that name.
    pub(crate) fn is_of(&self, kind: FailKind, name: &str) -> bool
        ensures { result ≡ is_of kind name.now self.now }
    {
        self.kind == kind && self.name.as_str() == name
    }
}
