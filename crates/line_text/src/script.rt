//! Lines that a script skips (no words, or a comment), and the first line, which names its command.

ghost use Rattle.std.specs.Prelude.{◌≡◌, ◌∷◌, ◌↔◌, [], IsTrue, codes};
ghost use Rattle.line_text.specs.Words.{words_of};
ghost use Rattle.line_text.specs.Lists.{texts};
ghost use Rattle.line_text.specs.Scripts.{is_skipped, first_words};

use crate::{LineWords, next_word};

/// Whether a line has no words, or is a comment.
pub fn is_skipped(line: &[u8]) -> bool
    ensures { result ≡ is_skipped (words_of line.now) }
{
    match next_word(line, 0) {
        Ok((start, _)) => line[start] == b'#',
        Err(_) => true,
    }
}

/// Whether a line is the first one of a command's script.
pub fn is_first_line(line: &[u8], command: &[u8]) -> bool
    ensures { IsTrue result ↔ (words_of line.now ≡ first_words command.now) }
{
    match LineWords::of(line) {
        Some(words) => are_first(words.as_slice(), command),
        None => false,
    }
}

fn are_first(words: &[&[u8]], command: &[u8]) -> bool
    ensures { IsTrue result ↔ (texts words.now ≡ first_words command.now) }
{
    match words {
        [one, two, three] => are_these(one, two, three, command),
        _ => false,
    }
}

fn are_these(one: &[u8], two: &[u8], three: &[u8], command: &[u8]) -> bool
    ensures { IsTrue result ↔ (one.now ∷ two.now ∷ three.now ∷ [] ≡ first_words command.now) }
{
    one == b"omx".as_slice() && two == b"1".as_slice() && three == command
}
