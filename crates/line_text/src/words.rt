//! Words of a line, parted by spaces and tabs, and the fault of a word by its place.

ghost use Rattle.std.specs.Prelude.{◌≡◌, ℕ, ◌-◌, ◌<◌, ◌≤◌, ◌↔◌, [], ◌∷◌, length, take, drop, slice_index, IsTrue, IfOk, IfErr, OnErr, MatchResult};
ghost use Rattle.line_text.specs.Words.{IsBlank, IsFirstWord, OnlyBlanksFrom, words_of};

/// A word that isn't there, or that isn't of its form: the place of the fault, counted from 0.
#[derive(Clone, Copy, Debug, PartialEq, Eq)]
pub struct BadWord {
    pub place: usize,
}

/// The first word at or after `from`, as its start and its end.
pub fn next_word(line: &[u8], from: usize) -> Result<(usize, usize), BadWord>
    ensures word { IfOk result (λ found. IsFirstWord line.now from found.0 found.1) }
    ensures only_blanks { OnErr result (OnlyBlanksFrom line.now from) }
    ensures place { IfErr result (λ bad. bad.place ≡ length line.now) }

    // The words of the rest of the line are this one and those of what follows it.
    ensures words { MatchResult result
        (λ found. words_of (drop from line.now)
        ≡ take (found.1 - found.0) (drop found.0 line.now) ∷ words_of (drop found.1 line.now))
        (λ _. words_of (drop from line.now) ≡ []) }
{
    let start = blanks_end(line, from);
    if start >= line.len() {
        return Err(BadWord { place: line.len() });
    }
    let end = word_end(line, start);
    Ok((start, end))
}

/// Where the blanks end that stand from a place on.
fn blanks_end(line: &[u8], from: usize) -> usize
    ensures at_or_after { from ≤ result }
    ensures blanks { (k : ℕ) → from ≤ k → k < result → k < length line.now → IsBlank (slice_index line.now k) }
    ensures ends { result < length line.now → ¬ (IsBlank (slice_index line.now result)) }
{
    let mut place = from;
    while place < line.len() && is_blank(line[place]) {
        place += 1;
    }
    place
}

/// Where the word ends that begins at a place.
fn word_end(line: &[u8], start: usize) -> usize
    requires some { start < length line.now }
    requires begins { ¬ (IsBlank (slice_index line.now start)) }
    ensures after { start < result }
    ensures within { result ≤ length line.now }
    ensures inside { (k : ℕ) → start ≤ k → k < result → ¬ (IsBlank (slice_index line.now k)) }
    ensures ends { result < length line.now → IsBlank (slice_index line.now result) }
{
    for place in start + 1..line.len() {
        if is_blank(line[place]) {
            return place;
        }
    }
    line.len()
}

fn is_blank(byte: u8) -> bool
    ensures { IsTrue result ↔ IsBlank byte }
{
    byte == b' ' || byte == b'\t'
}
