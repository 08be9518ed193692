//! The lines that `pack` and `unpack` print of their counts of packets and frames.

ghost use Rattle.std.specs.Prelude.{◌≡◌, ◌+◌, ◌≤◌, ◌++◌, length};
ghost use Rattle.omxrun.specs.Texts.{packed_text, unpacked_text, frames_line, taken_text, passed_text};

use crate::text::Text;
use rtp_parts::{Packed, Unpacked};

/// What packing a file prints.
pub fn text_of_packed(counts: Packed) -> Text
    ensures { result ≡ packed_text counts }
{
    let mut text = Text::new();
    text.push(b"packed ");
    text.push_number(counts.packets);
    text.push(b" packets ");
    text.push_number(counts.frames);
    text.push(b" frames\nok\n");
    text
}

/// What unpacking one prints.
pub fn text_of_unpacked(counts: Unpacked) -> Text
    ensures { result ≡ unpacked_text counts }
{
    let mut text = Text::new();
    put_frames(&mut text, counts);
    put_taken(&mut text, counts);
    put_passed(&mut text, counts);
    text
}

fn put_frames(text: &mut Text, counts: Unpacked)
    requires { length text.old ≡ 0 }
    ensures text { text.new ≡ text.old ++ frames_line counts }
    ensures len { length text.new ≤ 70 }
{
    text.push(b"unpacked ");
    text.push_number(counts.frames);
    text.push(b" frames ");
    text.push_number(counts.bytes);
    text.push(b" bytes\n");
}

fn put_taken(text: &mut Text, counts: Unpacked)
    requires { length text.old ≤ 70 }
    ensures text { text.new ≡ text.old ++ taken_text counts }
    ensures len { length text.new ≤ length text.old + 90 }
{
    text.push(b"packets ");
    text.push_number(counts.packets);
    text.push(b" accepted ");
    text.push_number(counts.accepted);
    text.push(b" late ");
    text.push_number(counts.late);
}

fn put_passed(text: &mut Text, counts: Unpacked)
    requires { length text.old ≤ 160 }
    ensures text { text.new ≡ text.old ++ passed_text counts }
{
    text.push(b" repeated ");
    text.push_number(counts.repeated);
    text.push(b" skipped ");
    text.push_number(counts.skipped);
    text.push(b"\nok\n");
}
