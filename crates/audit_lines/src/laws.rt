//! What must hold of the lines of logs, stated on functions that do nothing.

ghost use Rattle.std.specs.Prelude.{◌≡◌, ◌∷◌, ◌++◌, ◌^◌, ◌<◌, ◌≤◌, [], ℕ, List, All, codes, false, length};
ghost use Rattle.play_log.specs.Lines.{HasLines, IsLogLine, LogLine, is_left_out};
ghost use Rattle.audit_lines.specs.Lines.{IsOfPlay, pieces_of, text_of_line, texts_from};

/// No canonical line is longer than an audit takes: each one of a pass from 0 to 8 whose reply a log has is read.
pub fn law_of_short_lines()
    ensures short { (number : ℕ) (line : LogLine) → number < 2 ^ 64 → IsLogLine line → length (text_of_line number line) ≤ 512 }
    ensures taken { (number : ℕ) (line : LogLine) → number < 2 ^ 64 → IsLogLine line → line.pass ≤ 8 → is_left_out (line.said).reply ≡ false
        → IsOfPlay number (text_of_line number line) line }
    ensures one { (number : ℕ) (text : List ℕ) (line other : LogLine) → IsOfPlay number text line → IsOfPlay number text other → other ≡ line }
{}

/// A text is one of lines and `end` exactly where it is cut into the texts of canonical lines, each with its own number, and `end`.
pub fn law_of_log_lines()
    ensures cut { (text : List ℕ) (lines : List LogLine) → length text < 2 ^ 64 → HasLines text lines
        → pieces_of text ≡ texts_from 1 lines ++ codes "end" ∷ [] }
    ensures whole { (text : List ℕ) (lines : List LogLine) → All IsLogLine lines → pieces_of text ≡ texts_from 1 lines ++ codes "end" ∷ []
        → HasLines text lines }
{}
