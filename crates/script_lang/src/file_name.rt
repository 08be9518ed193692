//! The names of files in a play, and which words may name a file.

ghost use Rattle.std.specs.Prelude.{◌≡◌, ◌<◌, ◌≤◌, IfOk, IfSome, IfNone, IsUtf8, string_bytes, length};
ghost use Rattle.std.specs.List.{list_all};
ghost use Rattle.script_lang.specs.FileNames.{IsFileName, is_visible};

use crate::OutOfMemory;
use std::alloc::Global;
use std::marker::Model;
use std::str;

/// The most bytes of a file's name.
pub const FILE_NAME_BYTES: usize = 1_024;

/// The name of a file, as a play names it.
#[derive(Drop)]
pub struct FileName {
    text: String,
}

impl Model for FileName {
    ghost use Rattle.std.specs.Prelude.{ℕ, List, string_bytes};

    ghost Value = { List ℕ };

    ghost view = { λ name. string_bytes name.text };
}

impl FileName {
    /// The name as a value of its own. Whether the words may be a name, `file_text` tells.
    pub fn of(alloc: Global, text: &str) -> Result<FileName, OutOfMemory>
        ensures { IfOk result (λ name. name ≡ text.now) }
    {
        let text = String::from_str(alloc, text)?;
        Ok(FileName { text })
    }

    /// The bytes of the name.
    pub fn as_bytes(&self) -> &[u8]
        ensures { result.now ≡ self.now }
    {
        self.text.as_bytes()
    }

    /// The name, to be read.
    pub fn as_str(&self) -> &str
        ensures { result.now ≡ self.now }
    {
        self.text.as_str()
    }
}

/// The text of a word that may name a file.
pub fn file_text(word: &[u8]) -> Option<&str>
    ensures some { IfSome result (λ text. (text.now ≡ word.now) × IsFileName word.now) }
    ensures none { IfNone result (IsFileName word.now → ⊥) }
{
    if word.is_empty() || word.len() > FILE_NAME_BYTES || !are_visible(word) {
        return None;
    }
    match str::from_utf8(word) {
        Ok(text) => Some(text),
        Err(_) => None,
    }
}

fn are_visible(word: &[u8]) -> bool
    ensures { result ≡ list_all is_visible word.now }
{
    word.iter().all(|byte| *byte > 32)
}
