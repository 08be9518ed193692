//! A text is split into lines: at line feeds, without the carriage return before one.

ghost use Rattle.std.specs.Prelude.{◌≡◌, ◌∷◌, ◌<◌, ◌≤◌, ◌+◌, [], ℕ, length, slice_index, IfSome, IfNone};
ghost use Rattle.line_text.specs.Lines.{lines_of, without_return as line_of};

/// The first line of a text, and the text behind it.
pub fn next_line(text: &[u8]) -> Option<(&[u8], &[u8])>
    ensures none { IfNone result (lines_of text.now ≡ []) }
    ensures some { IfSome result (λ parts. lines_of text.now ≡ parts.0.now ∷ lines_of parts.1.now) }
    ensures shorter { IfSome result (λ parts. length parts.1.now < length text.now) }
{
    if text.is_empty() {
        return None;
    }
    let feed = feed_in(text);
    let (line, none) = text.split_at(feed);
    if feed == text.len() {
        return Some((line, none));
    }
    let (_, rest) = text.split_at(feed + 1);
    Some((without_return(line), rest))
}

/// The place of the first line feed, or the length.
pub fn feed_in(text: &[u8]) -> usize
    ensures within { result ≤ length text.now }
    ensures before { (k : ℕ) → k < result → slice_index text.now k ≡ 10 → ⊥ }
    ensures feed { result < length text.now → slice_index text.now result ≡ 10 }
{
    for (place, byte) in text.iter().enumerate() {
        if *byte == b'\n' {
            return place;
        }
    }
    text.len()
}

fn without_return(line: &[u8]) -> &[u8]
    ensures { result.now ≡ line_of line.now }
{
    match line.split_last() {
        Some((last, front)) => { if *last == b'\r' { front } else { line } }
        None => line,
    }
}
