//! Whether the reply of a line is that text.

ghost use Rattle.std.specs.Prelude.{◌≡◌, true, false};
ghost use Rattle.audit_acts.specs.Asking.{IsPlayText};

use act_text::TextReply;
use omx_types::{Completion, Event, OmxError, State};

fn is_same_error(one: OmxError, other: OmxError) -> bool
    ensures yes { result ≡ true → one ≡ other }
    ensures no { result ≡ false → one ≡ other → ⊥ }
{
    one.number() == other.number()
}

fn is_same_state(one: State, other: State) -> bool
    ensures yes { result ≡ true → one ≡ other }
    ensures no { result ≡ false → one ≡ other → ⊥ }
{
    match one {
        State::Invalid => matches!(other, State::Invalid),
        State::Loaded => matches!(other, State::Loaded),
        State::Idle => matches!(other, State::Idle),
        State::Executing => matches!(other, State::Executing),
        State::Pause => matches!(other, State::Pause),
        State::WaitForResources => matches!(other, State::WaitForResources),
    }
}

fn is_same_completion(one: Completion, other: Completion) -> bool
    ensures yes { result ≡ true → one ≡ other }
    ensures no { result ≡ false → one ≡ other → ⊥ }
{
    match one {
        Completion::State(state) => match other {
            Completion::State(other) => is_same_state(state, other),
            _ => false,
        },
        Completion::Flush(port) => match other {
            Completion::Flush(other) => port == other,
            _ => false,
        },
        Completion::Disable(port) => match other {
            Completion::Disable(other) => port == other,
            _ => false,
        },
        Completion::Enable(port) => match other {
            Completion::Enable(other) => port == other,
            _ => false,
        },
        Completion::Mark(port) => match other {
            Completion::Mark(other) => port == other,
            _ => false,
        },
    }
}

fn is_same_event(one: Event, other: Event) -> bool
    ensures yes { result ≡ true → one ≡ other }
    ensures no { result ≡ false → one ≡ other → ⊥ }
{
    match one {
        Event::CmdComplete(completion) => match other {
            Event::CmdComplete(other) => is_same_completion(completion, other),
            _ => false,
        },
        Event::Error(error) => match other {
            Event::Error(other) => is_same_error(error, other),
            _ => false,
        },
        Event::Mark(value) => match other {
            Event::Mark(other) => value == other,
            _ => false,
        },
        Event::PortSettingsChanged(port) => match other {
            Event::PortSettingsChanged(other) => port == other,
            _ => false,
        },
        Event::BufferFlag { port, flags } => match other {
            Event::BufferFlag {
                port: other_port,
                flags: other_flags,
            } => port == other_port && flags == other_flags,
            _ => false,
        },
        Event::ResourcesAcquired => matches!(other, Event::ResourcesAcquired),
    }
}

/// Whether the line's reply is the text of a reply to an act of a play.
pub fn is_same_reply(text: TextReply, said: &TextReply) -> bool
    requires { IsPlayText text }
    ensures yes { result ≡ true → said.now ≡ text }
    ensures no { result ≡ false → said.now ≡ text → ⊥ }
{
    match text {
        TextReply::Done => matches!(said, TextReply::Done),
        TextReply::Error(error) => match said {
            TextReply::Error(other) => is_same_error(error, *other),
            _ => false,
        },
        TextReply::Supplier { input } => match said {
            TextReply::Supplier { input: other } => input == *other,
            _ => false,
        },
        TextReply::Did => matches!(said, TextReply::Did),
        TextReply::Work => matches!(said, TextReply::Work),
        TextReply::Finished { frames } => match said {
            TextReply::Finished { frames: other } => frames == *other,
            _ => false,
        },
        TextReply::Event(event) => match said {
            TextReply::Event(other) => is_same_event(event, *other),
            _ => false,
        },
        _ => unreachable!(),
    }
}
