//! The summary of a whole play: for each sink its component's name, its frames and its bytes.

ghost use Rattle.std.specs.Prelude.{◌≡◌, ◌+◌, ◌≤◌, ◌++◌, length, map, slice_get, codes};
ghost use Rattle.std.specs.Fmt.{decimal};
ghost use Rattle.play_result_laws.specs.Summaries.{line_text, name_in, summary_text};
ghost use Rattle.play_course.specs.Sums.{line_value};

use crate::text::Text;
use play_course::SinkLine;
use script_lang::PartLine;

/// What a play prints that was done whole: a line for each of its sinks, of which there are at most 32.
pub fn text_of_play(parts: &[PartLine], sinks: &[SinkLine]) -> Text
    requires { length sinks.now ≤ 32 }
    ensures { result ≡ summary_text parts.now (map line_value sinks.now) }
{
    let mut text = Text::new();
    for number in 0..sinks.len() {
        let sink = sinks[number];
        put_sink(&mut text, name_of(parts, sink.component), sink);
    }
    text.push(b"ok\n");
    text
}

/// The name of the component at the place.
fn name_of(parts: &[PartLine], place: u32) -> &[u8]
    ensures name { result.now ≡ name_in (slice_get parts.now place) }
    ensures short { length result.now ≤ 16 }
{
    match parts.get(place as usize) {
        Some(part) => part.name.as_bytes(),
        None => &[],
    }
}

fn put_sink(text: &mut Text, name: &[u8], sink: SinkLine)
    requires room { length text.old + 77 ≤ 2560 }
    requires short { length name.now ≤ 16 }
    ensures text { text.new ≡ text.old ++ (codes "sink " ++ (name.now ++ (codes " " ++ (decimal sink.frames ++ (codes " frames " ++ (decimal sink.bytes ++ codes " bytes\n")))))) }
    ensures len { length text.new ≤ length text.old + 77 }
{
    text.push(b"sink ");
    text.push(name);
    text.push(b" ");
    text.push_number(sink.frames);
    text.push(b" frames ");
    text.push_number(sink.bytes);
    text.push(b" bytes\n");
}
