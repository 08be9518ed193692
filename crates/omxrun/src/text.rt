//! A text buffer of fixed size, to which bytes and decimal numbers are appended.

ghost use Rattle.std.specs.Prelude.{◌≡◌, ◌+◌, ◌≤◌, ℕ, List, [], ◌++◌, length};
ghost use Rattle.std.specs.Fmt.{decimal};

use arrayvec::ArrayVec;
use line_text::put_number;
use std::marker::Model;

/// The room of a text, in bytes. The longest that is printed has fewer.
const ROOM: usize = 2560;

/// A text of a few lines, in place.
#[derive(Drop)]
pub struct Text {
    bytes: ArrayVec<u8, ROOM>,
}

impl Model for Text {
    ghost Value = { List ℕ };

    ghost view = { λ text. text.bytes.items };
}

impl Text {
    /// No text yet.
    pub fn new() -> Text
        ensures { result ≡ [] }
    {
        Text {
            bytes: ArrayVec::new(),
        }
    }

    /// Puts the bytes behind the text.
    pub fn push(&mut self, piece: &[u8])
        requires { length self.old + length piece.now ≤ 2560 }
        ensures bytes { self.new ≡ self.old ++ piece.now }
        ensures len { length self.new ≡ length self.old + length piece.now }
    {
        // The room is required, so nothing is refused.
        let _ = self.bytes.try_extend_from_slice(piece);
    }

    /// Appends the decimal digits of a number.
    pub fn push_number(&mut self, number: u64)
        requires { length self.old + 20 ≤ 2560 }
        ensures bytes { self.new ≡ self.old ++ decimal number }
        ensures len { length self.new ≤ length self.old + 20 }
    {
        let mut digits = [0u8; 20];
        let count = put_number(number, &mut digits);
        self.push(&digits[..count]);
    }

    /// The bytes of the text.
    pub fn as_slice(&self) -> &[u8]
        ensures { result.now ≡ self.now }
    {
        self.bytes.as_slice()
    }
}
