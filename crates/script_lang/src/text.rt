//! A text of kept bytes: made from a slice or a vector, and given back.

ghost use Rattle.std.specs.Prelude.{◌≡◌, ℕ, List, IfOk};

use crate::OutOfMemory;
use std::alloc::Global;
use std::marker::Model;

/// Bytes that are kept: a word, the words of a line, or what a header is filled with.
#[derive(Drop)]
pub struct Text {
    bytes: Vec<u8>,
}

impl Model for Text {
    ghost use Rattle.std.specs.Prelude.{ℕ, List};

    ghost Value = { List ℕ };

    ghost view = { λ text. text.bytes.items };
}

impl Text {
    /// The text that has a copy of these bytes.
    pub fn of(alloc: Global, bytes: &[u8]) -> Result<Text, OutOfMemory>
        ensures { IfOk result (λ text. text ≡ bytes.now) }
    {
        let bytes = Vec::from_slice(alloc, bytes)?;
        Ok(Text { bytes })
    }

    /// The text that has these bytes.
    pub fn from_vec(bytes: Vec<u8>) -> Text
        ensures { result ≡ bytes.items }
    {
        Text { bytes }
    }

    /// The bytes of the text, to be read.
    pub fn as_bytes(&self) -> &[u8]
        ensures { result.now ≡ self.now }
    {
        self.bytes.as_slice()
    }
}
