//! Whether a line is just the given words with one space between.

ghost use Rattle.std.specs.Prelude.{◌≡◌, ◌∷◌, ◌++◌, ◌<◌, ◌≤◌, ◌↔◌, [], ℕ, List, take, drop, length, IfSome, IfNone, IsTrue};
ghost use Rattle.line_text.specs.Words.{words_of};
ghost use Rattle.line_text.specs.Lists.{texts, held_words, after_spaces, spaced};

use line_text::next_word;

/// Whether a line is these words, parted by one space.
pub fn is_spaced(line: &[u8], words: &[&[u8]]) -> bool
    ensures { IsTrue result ↔ (line.now ≡ spaced (texts words.now)) }
{
    match words {
        [] => line.is_empty(),
        [first, rest @ ..] => begins_spaced(line, first, rest),
    }
}

/// Whether a line is a word and then the others, with a space before each of these.
fn begins_spaced(line: &[u8], first: &[u8], rest: &[&[u8]]) -> bool
    ensures { IsTrue result ↔ (line.now ≡ first.now ++ after_spaces (texts rest.now)) }
{
    match after(line, first) {
        Some(behind) => follow_spaces(behind, rest),
        None => false,
    }
}

/// Whether a line is these words, with a space before each.
fn follow_spaces(line: &[u8], words: &[&[u8]]) -> bool
    ensures { IsTrue result ↔ (line.now ≡ after_spaces (texts words.now)) }
{
    let mut rest = line;
    for word in words {
        let Some(behind) = after_space(rest, word) else {
            return false;
        };
        rest = behind;
    }
    rest.is_empty()
}

/// What follows a space and a word that a line begins with.
fn after_space<'a>(line: &'a [u8], word: &[u8]) -> Option<&'a [u8]>
    ensures some { IfSome result (λ rest. line.now ≡ 32 ∷ (word.now ++ rest.now)) }
    ensures none { IfNone result ((rest : List ℕ) → line.now ≡ 32 ∷ (word.now ++ rest) → ⊥) }
{
    match line {
        [b' ', rest @ ..] => after(rest, word),
        _ => None,
    }
}

/// What follows a word that a line begins with.
fn after<'a>(line: &'a [u8], word: &[u8]) -> Option<&'a [u8]>
    ensures some { IfSome result (λ rest. line.now ≡ word.now ++ rest.now) }
    ensures none { IfNone result ((rest : List ℕ) → line.now ≡ word.now ++ rest → ⊥) }
{
    let len = word.len();
    if len > line.len() {
        return None;
    }
    let (start, rest) = line.split_at(len);
    if start == word { Some(rest) } else { None }
}
