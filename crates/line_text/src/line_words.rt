//! A line is split into its words, 16 at most, each a slice of the line.

ghost use Rattle.std.specs.Prelude.{◌≡◌, ◌<◌, ◌≤◌, length, IfSome, IfNone};
ghost use Rattle.line_text.specs.Words.{words_of};

use crate::next_word;

/// More words than a line of any form has.
const ROOM: usize = 16;

/// The words of a line, in place.
#[derive(Clone, Copy)]
pub struct LineWords<'a> {
    room: [&'a [u8]; ROOM],
    count: usize,
    ghost within: { count ≤ 16 },
}

impl<'a> LineWords<'a> {
    ghost use Rattle.line_text.specs.Lists.{texts, held_words};

    /// The words of a line, where they are 16 at most.
    pub fn of(line: &'a [u8]) -> Option<LineWords<'a>>
        ensures some { IfSome result (λ words. held_words words ≡ words_of line.now) }
        ensures none { IfNone result (16 < length (words_of line.now)) }
    {
        let mut room = [line; ROOM];
        let mut count = 0;
        let mut place = 0;
        while let Ok((start, end)) = next_word(line, place) {
            if count == ROOM {
                return None;
            }
            room[count] = &line[start..end];
            count += 1;
            place = end;
        }
        Some(LineWords { room, count })
    }

    /// The words in their order, without their spaces.
    pub fn as_slice(&self) -> &[&'a [u8]]
        ensures { texts result.now ≡ held_words self.now }
    {
        &self.room[..self.count]
    }
}
