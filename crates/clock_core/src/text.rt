//! The printed text of a clock's call: its line with the answer, and a line for each note.

ghost use Rattle.std.specs.Prelude.{◌≡◌, ◌∷◌, ◌++◌, ◌+◌, ◌*◌, ◌≤◌, length};
ghost use Rattle.std.specs.Fmt.{decimal};
ghost use Rattle.line_text.specs.Lists.{after_spaces};
ghost use Rattle.clock_core.specs.Script.{act_words, call_words};
ghost use Rattle.clock_core.specs.Printed.{refusal_name, refusal_in, reply_text, line_text, due_line, due_lines};

use crate::{ClockAct, ClockRefusal, Fulfilled, TimedAct};
use arrayvec::ArrayVec;
use line_text::put_number;

/// The text of a call: its line, and a line for each of 64 notes at most.
pub(crate) type CallText = ArrayVec<u8, 4096>;

fn put(text: &mut CallText, bytes: &[u8])
    requires { length text.old.items + length bytes.now ≤ 4096 }
    ensures { text.new.items ≡ text.old.items ++ bytes.now }
{
    for byte in bytes {
        text.push(*byte);
    }
}

fn put_decimal(text: &mut CallText, n: u64)
    requires { length text.old.items + 20 ≤ 4096 }
    ensures items { text.new.items ≡ text.old.items ++ decimal n }
    ensures few { length text.new.items ≤ length text.old.items + 20 }
{
    let mut digits = [0u8; 20];
    let count = put_number(n, &mut digits);
    put(text, &digits[..count]);
}

/// A space and a number.
fn put_number_word(text: &mut CallText, n: u64)
    requires { length text.old.items + 21 ≤ 4096 }
    ensures items { text.new.items ≡ text.old.items ++ 32 ∷ decimal n }
    ensures few { length text.new.items ≤ length text.old.items + 21 }
{
    put(text, b" ");
    put_decimal(text, n);
}

fn put_act(text: &mut CallText, act: ClockAct)
    requires { length text.old.items + 64 ≤ 4096 }
    ensures items { text.new.items ≡ text.old.items ++ after_spaces (act_words act) }
    ensures few { length text.new.items ≤ length text.old.items + 64 }
{
    match act {
        ClockAct::Start(media) => {
            put(text, b" start");
            put_number_word(text, media);
        }
        ClockAct::Stop => put(text, b" stop"),
        ClockAct::Scale(scale) => {
            put(text, b" scale");
            put_number_word(text, u64::from(scale));
        }
        ClockAct::Wait(mask) => {
            put(text, b" wait");
            put_number_word(text, u64::from(mask));
        }
        ClockAct::Port { port, media } => {
            put(text, b" port");
            put_number_word(text, u64::from(port));
            put_number_word(text, media);
        }
        ClockAct::Ask { id, media } => {
            put(text, b" ask");
            put_number_word(text, id);
            put_number_word(text, media);
        }
        ClockAct::Cancel(id) => {
            put(text, b" cancel");
            put_number_word(text, id);
        }
        ClockAct::Pass => put(text, b" pass"),
    }
}

/// The name of a refusal, as it is printed.
fn name_of(refusal: ClockRefusal) -> &'static [u8]
    ensures name { result.now ≡ refusal_name refusal }
    ensures few { length result.now ≤ 10 }
{
    match refusal {
        ClockRefusal::Backwards { last: _ } => b"Backwards",
        ClockRefusal::BadScale => b"BadScale",
        ClockRefusal::BadMask => b"BadMask",
        ClockRefusal::NotWaiting => b"NotWaiting",
        ClockRefusal::Taken => b"Taken",
        ClockRefusal::Full => b"Full",
        ClockRefusal::Unknown => b"Unknown",
    }
}

fn put_reply(text: &mut CallText, answer: Result<u32, ClockRefusal>)
    requires { length text.old.items + 16 ≤ 4096 }
    ensures items { text.new.items ≡ text.old.items ++ reply_text (refusal_in answer) }
    ensures few { length text.new.items ≤ length text.old.items + 16 }
{
    match answer {
        Ok(_) => put(text, b"ok"),
        Err(refusal) => {
            put(text, b"error ");
            put(text, name_of(refusal));
        }
    }
}

/// The line of a call with its answer.
pub(crate) fn put_line(
    text: &mut CallText,
    number: u64,
    call: TimedAct,
    answer: Result<u32, ClockRefusal>,
)
    requires { length text.old.items + 160 ≤ 4096 }
    ensures items { text.new.items ≡ text.old.items ++ line_text number (call_words call) (refusal_in answer) }
    ensures few { length text.new.items ≤ length text.old.items + 160 }
{
    put_decimal(text, number);
    put(text, b": at");
    put_number_word(text, call.wall);
    put_act(text, call.act);
    put(text, b" = ");
    put_reply(text, answer);
    put(text, b"\n");
}

fn put_due(text: &mut CallText, note: Fulfilled)
    requires { length text.old.items + 50 ≤ 4096 }
    ensures items { text.new.items ≡ text.old.items ++ due_line note }
    ensures few { length text.new.items ≤ length text.old.items + 50 }
{
    put(text, b"due ");
    put_decimal(text, note.id);
    put(text, b" at ");
    put_decimal(text, note.wall);
    put(text, b"\n");
}

/// A line for each note.
pub(crate) fn put_notes(text: &mut CallText, notes: &[Fulfilled])
    requires { length text.old.items + 50 * length notes.now ≤ 4096 }
    ensures { text.new.items ≡ text.old.items ++ due_lines notes.now }
{
    for note in notes {
        put_due(text, *note);
    }
}
