//! Replies are appended as words, with port views, events, and why an act changed nothing.

ghost use Rattle.std.specs.Prelude.{◌≡◌, ◌∷◌, ◌++◌, [], ℕ, List, OnOk, OnErr, codes};
ghost use Rattle.std.specs.Fmt.{decimal};
ghost use Rattle.act_text.specs.Replies.{reply_words, event_words, why_words, view_words, side_word, enabled_word, mode_word};
ghost use Rattle.line_text.specs.Lists.{spaced};
ghost use Rattle.act_text.specs.Words.{word_bytes, IsGrown};

use crate::put::{Word, number, put_words};
use crate::{OutOfMemory, TextReply, TextWhy};
use il_machine::{Mode, PortView};
use omx_types::{Completion, Event};

/// Appends the words of a reply, parted by one space.
pub fn put_reply_words(reply: &TextReply, out: &mut Vec<u8>) -> Result<(), OutOfMemory>
    ensures ok { OnOk result (out.new.items ≡ out.old.items ++ spaced (reply_words reply.now)) }
    ensures err { OnErr result (IsGrown out.old.items out.new.items) }
{
    match reply {
        TextReply::Done => put_words(&[Word::Bytes(b"ok")], out),
        TextReply::Error(error) => put_words(
            &[Word::Bytes(b"error"), Word::Bytes(error.name().as_bytes())],
            out,
        ),
        TextReply::State(state) => put_words(&[Word::Bytes(state.name().as_bytes())], out),
        TextReply::Port(view) => put_view(view, out),
        TextReply::Supplier { input } => put_words(&[Word::Bytes(side_bytes(*input))], out),
        TextReply::Did => put_words(&[Word::Bytes(b"did")], out),
        TextReply::Work => put_words(&[Word::Bytes(b"work")], out),
        TextReply::Finished { frames } => put_words(&[Word::Bytes(b"did"), number(*frames)], out),
        TextReply::Idle(why) => put_why(why, out),
        TextReply::NoNote => put_words(&[Word::Bytes(b"none")], out),
        TextReply::Busy => put_words(&[Word::Bytes(b"busy")], out),
        TextReply::Event(event) => put_event(event, out),
        TextReply::NotHeld => put_words(&[Word::Bytes(b"not"), Word::Bytes(b"held")], out),
        TextReply::TooLong => put_words(&[Word::Bytes(b"too"), Word::Bytes(b"long")], out),
        TextReply::NotOut => put_words(&[Word::Bytes(b"not"), Word::Bytes(b"out")], out),
        TextReply::Granted(component) => put_words(
            &[Word::Bytes(b"granted"), Word::Bytes(component.as_bytes())],
            out,
        ),
        TextReply::Victim(component) => put_words(
            &[Word::Bytes(b"victim"), Word::Bytes(component.as_bytes())],
            out,
        ),
    }
}

fn side_bytes(input: bool) -> &'static [u8]
    ensures { result.now ≡ side_word input }
{
    if input { b"input" } else { b"output" }
}

fn enabled_bytes(enabled: bool) -> &'static [u8]
    ensures { result.now ≡ enabled_word enabled }
{
    if enabled { b"enabled" } else { b"disabled" }
}

fn mode_bytes(mode: Mode) -> &'static [u8]
    ensures { result.now ≡ mode_word mode }
{
    match mode {
        Mode::Steady => b"steady",
        Mode::Enabling => b"enabling",
        Mode::Disabling => b"disabling",
    }
}

fn put_view(view: &PortView, out: &mut Vec<u8>) -> Result<(), OutOfMemory>
    ensures ok { OnOk result (out.new.items ≡ out.old.items ++ spaced (view_words view.now)) }
    ensures err { OnErr result (IsGrown out.old.items out.new.items) }
{
    let side = Word::Bytes(side_bytes(view.input));
    let enabled = Word::Bytes(enabled_bytes(view.enabled));
    let mode = Word::Bytes(mode_bytes(view.mode));
    let made = number(view.made);
    let of = Word::Bytes(b"of");
    let count = number(view.count);
    if view.flushing {
        let flushing = Word::Bytes(b"flushing");
        put_words(&[side, enabled, mode, flushing, made, of, count], out)
    } else {
        put_words(&[side, enabled, mode, made, of, count], out)
    }
}

fn put_event(event: &Event, out: &mut Vec<u8>) -> Result<(), OutOfMemory>
    ensures ok { OnOk result (out.new.items ≡ out.old.items ++ spaced (codes "event" ∷ event_words event.now)) }
    ensures err { OnErr result (IsGrown out.old.items out.new.items) }
{
    match event {
        Event::CmdComplete(Completion::State(state)) => told(b"state", named(state.name()), out),
        Event::CmdComplete(Completion::Flush(port)) => told(b"flush", number(*port), out),
        Event::CmdComplete(Completion::Disable(port)) => told(b"disable", number(*port), out),
        Event::CmdComplete(Completion::Enable(port)) => told(b"enable", number(*port), out),
        Event::CmdComplete(Completion::Mark(port)) => told(b"mark", number(*port), out),
        Event::Error(error) => told(b"error", named(error.name()), out),
        Event::Mark(value) => told(b"marked", Word::Number(*value), out),
        Event::PortSettingsChanged(port) => told(b"settings", number(*port), out),
        Event::BufferFlag { port, flags } => put_flags(*port, *flags, out),
        Event::ResourcesAcquired => put_words(
            &[Word::Bytes(b"event"), Word::Bytes(b"acquired")],
            out,
        ),
    }
}

fn named(name: &str) -> Word<'_>
    ensures { word_bytes result ≡ name.now }
{
    Word::Bytes(name.as_bytes())
}

fn told<'a>(what: &'a [u8], value: Word<'a>, out: &mut Vec<u8>) -> Result<(), OutOfMemory>
    ensures ok { OnOk result (out.new.items ≡ out.old.items ++ spaced (codes "event" ∷ what.now ∷ word_bytes value.entry ∷ [])) }
    ensures err { OnErr result (IsGrown out.old.items out.new.items) }
{
    put_words(&[Word::Bytes(b"event"), Word::Bytes(what), value], out)
}

fn put_flags(port: u32, flags: u32, out: &mut Vec<u8>) -> Result<(), OutOfMemory>
    ensures ok { OnOk result (out.new.items ≡ out.old.items ++ spaced (codes "event" ∷ codes "flags" ∷ decimal port ∷ decimal flags ∷ [])) }
    ensures err { OnErr result (IsGrown out.old.items out.new.items) }
{
    let words = [
        Word::Bytes(b"event"),
        Word::Bytes(b"flags"),
        number(port),
        number(flags),
    ];
    put_words(&words, out)
}

/// Appends `idle` and a why.
fn put_why(why: &TextWhy, out: &mut Vec<u8>) -> Result<(), OutOfMemory>
    ensures ok { OnOk result (out.new.items ≡ out.old.items ++ spaced (codes "idle" ∷ why_words why.now)) }
    ensures err { OnErr result (IsGrown out.old.items out.new.items) }
{
    match why {
        TextWhy::NoCommand => put_idle(b"no", b"command", out),
        TextWhy::Pending(state) => put_idle(b"pending", state.name().as_bytes(), out),
        TextWhy::PortBusy(port) => put_idle_at(b"port", b"busy", number(*port), out),
        TextWhy::NotSupplier => put_idle(b"not", b"supplier", out),
        TextWhy::IsSupplier => put_idle_word(b"supplier", out),
        TextWhy::NotAccepting(port) => put_idle_at(b"not", b"accepting", Word::Port(port), out),
        TextWhy::NoBlock => put_idle(b"no", b"block", out),
        TextWhy::NoNumber => put_idle(b"no", b"number", out),
        TextWhy::NotLeaving => put_idle(b"not", b"leaving", out),
        TextWhy::NoHeader => put_idle(b"no", b"header", out),
        TextWhy::NotRunning(port) => put_idle_at(b"not", b"running", Word::Port(port), out),
        TextWhy::NoWaiter => put_idle(b"no", b"waiter", out),
        TextWhy::Short { have, need } => put_numbers(b"short", *have, *need, out),
        TextWhy::Enough { have, need } => put_numbers(b"enough", *have, *need, out),
        TextWhy::NoVictim => put_idle(b"no", b"victim", out),
        TextWhy::Events { room, need } => put_numbers(b"events", *room, *need, out),
        TextWhy::WorkOut => put_idle_word(b"busy", out),
        TextWhy::ComponentNotRunning => put_idle(b"not", b"running", out),
        TextWhy::PartEnded => put_idle_word(b"ended", out),
        TextWhy::PortHeld(port) => put_idle_port(b"held", *port, out),
        TextWhy::NoData(port) => put_idle_at(b"no", b"data", number(*port), out),
        TextWhy::NoRoom(port) => put_idle_at(b"no", b"room", number(*port), out),
    }
}

fn put_idle_word(word: &[u8], out: &mut Vec<u8>) -> Result<(), OutOfMemory>
    ensures ok { OnOk result (out.new.items ≡ out.old.items ++ spaced (codes "idle" ∷ word.now ∷ [])) }
    ensures err { OnErr result (IsGrown out.old.items out.new.items) }
{
    put_words(&[Word::Bytes(b"idle"), Word::Bytes(word)], out)
}

fn put_idle_port(word: &[u8], port: u32, out: &mut Vec<u8>) -> Result<(), OutOfMemory>
    ensures ok { OnOk result (out.new.items ≡ out.old.items ++ spaced (codes "idle" ∷ word.now ∷ decimal port ∷ [])) }
    ensures err { OnErr result (IsGrown out.old.items out.new.items) }
{
    put_words(
        &[Word::Bytes(b"idle"), Word::Bytes(word), number(port)],
        out,
    )
}

fn put_idle<'a>(one: &'a [u8], two: &'a [u8], out: &mut Vec<u8>) -> Result<(), OutOfMemory>
    ensures ok { OnOk result (out.new.items ≡ out.old.items ++ spaced (codes "idle" ∷ one.now ∷ two.now ∷ [])) }
    ensures err { OnErr result (IsGrown out.old.items out.new.items) }
{
    put_words(
        &[Word::Bytes(b"idle"), Word::Bytes(one), Word::Bytes(two)],
        out,
    )
}

fn put_idle_at<'a>(
    one: &'a [u8],
    two: &'a [u8],
    place: Word<'a>,
    out: &mut Vec<u8>,
) -> Result<(), OutOfMemory>
    ensures ok { OnOk result (out.new.items ≡ out.old.items ++ spaced (codes "idle" ∷ one.now ∷ two.now ∷ word_bytes place.entry ∷ [])) }
    ensures err { OnErr result (IsGrown out.old.items out.new.items) }
{
    put_words(
        &[
            Word::Bytes(b"idle"),
            Word::Bytes(one),
            Word::Bytes(two),
            place,
        ],
        out,
    )
}

fn put_numbers(what: &[u8], first: u32, second: u32, out: &mut Vec<u8>) -> Result<(), OutOfMemory>
    ensures ok { OnOk result (out.new.items ≡ out.old.items ++ spaced (codes "idle" ∷ what.now ∷ decimal first ∷ decimal second ∷ [])) }
    ensures err { OnErr result (IsGrown out.old.items out.new.items) }
{
    let first = number(first);
    let second = number(second);
    put_words(
        &[Word::Bytes(b"idle"), Word::Bytes(what), first, second],
        out,
    )
}
