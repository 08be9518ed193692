//! A text is cut into lines. Unlike a script's line, a log's keeps a carriage return, with which it isn't canonical.

ghost use Rattle.std.specs.Prelude.{◌≡◌, ◌∷◌, ◌<◌, [], length, IfNone, IfSome};
ghost use Rattle.audit_lines.specs.Lines.{pieces_of};

use line_text::feed_in;

/// The first line of a text, without its line feed, which the last one may lack; and what follows.
pub fn next_line(text: &[u8]) -> Option<(&[u8], &[u8])>
    ensures none { IfNone result (pieces_of text.now ≡ []) }
    ensures some { IfSome result (λ parts. pieces_of text.now ≡ parts.0.now ∷ pieces_of parts.1.now) }
    ensures shorter { IfSome result (λ parts. length parts.1.now < length text.now) }
{
    if text.is_empty() {
        return None;
    }
    let feed = feed_in(text);
    let (line, none) = text.split_at(feed);
    if feed == text.len() {
        return Some((line, none));
    }
    let (_, rest) = text.split_at(feed + 1);
    Some((line, rest))
}
