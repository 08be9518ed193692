//! Events and errors are read from words.

ghost use Rattle.std.specs.Prelude.{◌≡◌, ◌^◌, ◌∷◌, [], ℕ, List, IfSome, length, codes};
ghost use Rattle.std.specs.Fmt.{decimal};
ghost use Rattle.omx_types.specs.Names.{error_name};
ghost use Rattle.act_text.specs.Acts.{FitsWord};
ghost use Rattle.line_text.specs.ReadNumbers.{small_number, number_below};
ghost use Rattle.act_text.specs.Replies.{event_words, IsEvent};
ghost use Rattle.act_text.specs.ReadReplies.{error_of, later_error_of, port_event, port_event_at, event_with, event_of};
ghost use Rattle.line_text.specs.Lists.{texts};

use crate::read_acts::state_in;
use line_text::{number_in, small_number_in};
use omx_types::{Completion, Event, OmxError};

/// The error that a word names.
pub fn error_in(word: &[u8]) -> Option<OmxError>
    ensures some { IfSome result (λ error. word.now ≡ error_name error) }
    ensures is { result ≡ error_of word.now }
{
    if word == b"InsufficientResources".as_slice() {
        Some(OmxError::InsufficientResources)
    } else if word == b"InvalidComponentName".as_slice() {
        Some(OmxError::InvalidComponentName)
    } else if word == b"ComponentNotFound".as_slice() {
        Some(OmxError::ComponentNotFound)
    } else if word == b"InvalidComponent".as_slice() {
        Some(OmxError::InvalidComponent)
    } else if word == b"BadParameter".as_slice() {
        Some(OmxError::BadParameter)
    } else if word == b"Hardware".as_slice() {
        Some(OmxError::Hardware)
    } else if word == b"InvalidState".as_slice() {
        Some(OmxError::InvalidState)
    } else if word == b"StreamCorrupt".as_slice() {
        Some(OmxError::StreamCorrupt)
    } else if word == b"PortsNotCompatible".as_slice() {
        Some(OmxError::PortsNotCompatible)
    } else if word == b"ResourcesLost".as_slice() {
        Some(OmxError::ResourcesLost)
    } else {
        later_error_in(word)
    }
}

fn later_error_in(word: &[u8]) -> Option<OmxError>
    ensures some { IfSome result (λ error. word.now ≡ error_name error) }
    ensures is { result ≡ later_error_of word.now }
{
    if word == b"VersionMismatch".as_slice() {
        Some(OmxError::VersionMismatch)
    } else if word == b"NotReady".as_slice() {
        Some(OmxError::NotReady)
    } else if word == b"SameState".as_slice() {
        Some(OmxError::SameState)
    } else if word == b"ResourcesPreempted".as_slice() {
        Some(OmxError::ResourcesPreempted)
    } else if word == b"IncorrectStateTransition".as_slice() {
        Some(OmxError::IncorrectStateTransition)
    } else if word == b"IncorrectStateOperation".as_slice() {
        Some(OmxError::IncorrectStateOperation)
    } else if word == b"UnsupportedSetting".as_slice() {
        Some(OmxError::UnsupportedSetting)
    } else if word == b"UnsupportedIndex".as_slice() {
        Some(OmxError::UnsupportedIndex)
    } else if word == b"BadPortIndex".as_slice() {
        Some(OmxError::BadPortIndex)
    } else if word == b"PortUnpopulated".as_slice() {
        Some(OmxError::PortUnpopulated)
    } else {
        None
    }
}

/// An event that names one port.
fn port_event(what: &[u8], port: u32) -> Option<Event>
    ensures some { IfSome result (λ event. what.now ∷ decimal port ∷ [] ≡ event_words event) }
    ensures event { IfSome result IsEvent }
    ensures is { result ≡ port_event what.now port }
{
    if what == b"flush".as_slice() {
        Some(Event::CmdComplete(Completion::Flush(port)))
    } else if what == b"disable".as_slice() {
        Some(Event::CmdComplete(Completion::Disable(port)))
    } else if what == b"enable".as_slice() {
        Some(Event::CmdComplete(Completion::Enable(port)))
    } else if what == b"mark".as_slice() {
        Some(Event::CmdComplete(Completion::Mark(port)))
    } else if what == b"settings".as_slice() {
        Some(Event::PortSettingsChanged(port))
    } else {
        None
    }
}

/// An event with one more word.
fn event_with(what: &[u8], value: &[u8]) -> Option<Event>
    ensures some { IfSome result (λ event. what.now ∷ value.now ∷ [] ≡ event_words event) }
    ensures event { IfSome result IsEvent }
    ensures is { result ≡ event_with what.now value.now }
{
    if what == b"state".as_slice() {
        let Some(state) = state_in(value) else {
            return None;
        };
        Some(Event::CmdComplete(Completion::State(state)))
    } else if what == b"error".as_slice() {
        let Some(error) = error_in(value) else {
            return None;
        };
        Some(Event::Error(error))
    } else if what == b"marked".as_slice() {
        let Some(mark) = number_in(value) else {
            return None;
        };
        Some(Event::Mark(mark))
    } else {
        let Some(port) = small_number_in(value) else {
            return None;
        };
        port_event(what, port)
    }
}

fn flags_event(what: &[u8], port: &[u8], flags: &[u8]) -> Option<Event>
    ensures some { IfSome result (λ event. what.now ∷ port.now ∷ flags.now ∷ [] ≡ event_words event) }
    ensures event { IfSome result IsEvent }
    ensures is { result ≡ event_of (what.now ∷ port.now ∷ flags.now ∷ []) }
{
    if what != b"flags".as_slice() {
        return None;
    }
    let Some(port) = small_number_in(port) else {
        return None;
    };
    let Some(flags) = small_number_in(flags) else {
        return None;
    };
    Some(Event::BufferFlag { port, flags })
}

fn lone_event(what: &[u8]) -> Option<Event>
    ensures some { IfSome result (λ event. what.now ∷ [] ≡ event_words event) }
    ensures event { IfSome result IsEvent }
    ensures is { result ≡ event_of (what.now ∷ []) }
{
    if what == b"acquired".as_slice() {
        Some(Event::ResourcesAcquired)
    } else {
        None
    }
}

/// The event of the words after `event`.
pub fn event_in(words: &[&[u8]]) -> Option<Event>
    ensures some { IfSome result (λ event. texts words.now ≡ event_words event) }
    ensures event { IfSome result IsEvent }
    ensures is { result ≡ event_of (texts words.now) }
{
    match words {
        [what] => lone_event(what),
        [what, value] => event_with(what, value),
        [what, port, flags] => flags_event(what, port, flags),
        _ => None,
    }
}
