//! Replies are read from words, with the port views in them.

ghost use Rattle.std.specs.Prelude.{◌≡◌, ◌∷◌, ◌<◌, [], ℕ, List, IfSome, Some, true, false, option_map, length, codes};
ghost use Rattle.line_text.specs.ReadNumbers.{small_number};
ghost use Rattle.act_text.specs.ReadActs.{state_of};
ghost use Rattle.act_text.specs.Reading.{name_of};
ghost use Rattle.act_text.specs.declared.reply.TextReply.TheVariants.{State, Port};
ghost use Rattle.act_text.specs.Replies.{reply_words, side_word, enabled_word, mode_word, count_words, IsReply};
ghost use Rattle.act_text.specs.ReadReplies.{reply_of_one, reply_of_two, reply_of_name, side_of, enabled_of, mode_of, view_of, view_with, other_reply_of, reply_of};
ghost use Rattle.line_text.specs.Lists.{texts};

use crate::TextReply;
use crate::parts::name_in;
use crate::read_acts::state_in;
use crate::read_events::{error_in, event_in};
use crate::read_whys::why_in;
use il_machine::{Mode, PortView};
use line_text::small_number_in;

fn reply_of_one(word: &[u8]) -> Option<TextReply>
    ensures some { IfSome result (λ reply. word.now ∷ [] ≡ reply_words reply) }
    ensures reply { IfSome result IsReply }
    ensures is { result ≡ reply_of_one word.now }
{
    if word == b"ok".as_slice() {
        Some(TextReply::Done)
    } else if word == b"did".as_slice() {
        Some(TextReply::Did)
    } else if word == b"work".as_slice() {
        Some(TextReply::Work)
    } else if word == b"none".as_slice() {
        Some(TextReply::NoNote)
    } else if word == b"busy".as_slice() {
        Some(TextReply::Busy)
    } else if word == b"input".as_slice() {
        Some(TextReply::Supplier { input: true })
    } else if word == b"output".as_slice() {
        Some(TextReply::Supplier { input: false })
    } else {
        state_reply(word)
    }
}

fn state_reply(word: &[u8]) -> Option<TextReply>
    ensures some { IfSome result (λ reply. word.now ∷ [] ≡ reply_words reply) }
    ensures reply { IfSome result IsReply }
    ensures is { result ≡ option_map State (state_of word.now) }
{
    let Some(state) = state_in(word) else {
        return None;
    };
    Some(TextReply::State(state))
}

fn reply_of_two(one: &[u8], two: &[u8]) -> Option<TextReply>
    ensures some { IfSome result (λ reply. one.now ∷ two.now ∷ [] ≡ reply_words reply) }
    ensures reply { IfSome result IsReply }
    ensures is { result ≡ reply_of_two one.now two.now }
{
    if one == b"error".as_slice() {
        let Some(error) = error_in(two) else {
            return None;
        };
        Some(TextReply::Error(error))
    } else if one == b"not".as_slice() {
        if two == b"held".as_slice() {
            Some(TextReply::NotHeld)
        } else if two == b"out".as_slice() {
            Some(TextReply::NotOut)
        } else {
            None
        }
    } else if one == b"too".as_slice() {
        if two == b"long".as_slice() {
            Some(TextReply::TooLong)
        } else {
            None
        }
    } else if one == b"did".as_slice() {
        let Some(frames) = small_number_in(two) else {
            return None;
        };
        Some(TextReply::Finished { frames })
    } else {
        reply_of_name(one, two)
    }
}

/// A reply that names a component.
fn reply_of_name(one: &[u8], two: &[u8]) -> Option<TextReply>
    ensures some { IfSome result (λ reply. one.now ∷ two.now ∷ [] ≡ reply_words reply) }
    ensures reply { IfSome result IsReply }
    ensures is { result ≡ reply_of_name one.now (name_of two.now) }
{
    let component = name_in(two)?;
    if one == b"granted".as_slice() {
        Some(TextReply::Granted(component))
    } else if one == b"victim".as_slice() {
        Some(TextReply::Victim(component))
    } else {
        None
    }
}

fn side_in(word: &[u8]) -> Option<bool>
    ensures some { IfSome result (λ input. word.now ≡ side_word input) }
    ensures is { result ≡ side_of word.now }
{
    if word == b"input".as_slice() {
        Some(true)
    } else if word == b"output".as_slice() {
        Some(false)
    } else {
        None
    }
}

fn enabled_in(word: &[u8]) -> Option<bool>
    ensures some { IfSome result (λ enabled. word.now ≡ enabled_word enabled) }
    ensures is { result ≡ enabled_of word.now }
{
    if word == b"enabled".as_slice() {
        Some(true)
    } else if word == b"disabled".as_slice() {
        Some(false)
    } else {
        None
    }
}

fn mode_in(word: &[u8]) -> Option<Mode>
    ensures some { IfSome result (λ mode. word.now ≡ mode_word mode) }
    ensures is { result ≡ mode_of word.now }
{
    if word == b"steady".as_slice() {
        Some(Mode::Steady)
    } else if word == b"enabling".as_slice() {
        Some(Mode::Enabling)
    } else if word == b"disabling".as_slice() {
        Some(Mode::Disabling)
    } else {
        None
    }
}

/// A port's view, whether it is flushing aside.
fn view_with(
    side: &[u8],
    enabled: &[u8],
    mode: &[u8],
    flushing: bool,
    made: &[u8],
    count: &[u8],
) -> Option<PortView>
    ensures side { IfSome result (λ view. side.now ≡ side_word view.input) }
    ensures enabled { IfSome result (λ view. enabled.now ≡ enabled_word view.enabled) }
    ensures mode { IfSome result (λ view. mode.now ≡ mode_word view.mode) }
    ensures counts { IfSome result (λ view. made.now ∷ codes "of" ∷ count.now ∷ [] ≡ count_words view) }
    ensures flushing { IfSome result (λ view. view.flushing ≡ flushing) }
    ensures fits { IfSome result (λ view. IsReply (Port view)) }
    ensures is { option_map Port result ≡ view_with (side_of side.now) (enabled_of enabled.now) (mode_of mode.now) flushing (small_number made.now) (small_number count.now) }
{
    let Some(input) = side_in(side) else {
        return None;
    };
    let Some(enabled) = enabled_in(enabled) else {
        return None;
    };
    let Some(mode) = mode_in(mode) else {
        return None;
    };
    let Some(made) = small_number_in(made) else {
        return None;
    };
    let Some(count) = small_number_in(count) else {
        return None;
    };
    Some(PortView {
        input,
        enabled,
        mode,
        flushing,
        made,
        count,
    })
}

/// A steady view: no word for flushing.
fn still_view(
    side: &[u8],
    enabled: &[u8],
    mode: &[u8],
    made: &[u8],
    of: &[u8],
    count: &[u8],
) -> Option<TextReply>
    ensures some { IfSome result (λ reply. side.now ∷ enabled.now ∷ mode.now ∷ made.now ∷ of.now ∷ count.now ∷ [] ≡ reply_words reply) }
    ensures reply { IfSome result IsReply }
    ensures is { result ≡ view_of side.now enabled.now mode.now (made.now ∷ of.now ∷ count.now ∷ []) }
{
    if of != b"of".as_slice() {
        return None;
    }
    let Some(view) = view_with(side, enabled, mode, false, made, count) else {
        return None;
    };
    Some(TextReply::Port(view))
}

fn flushing_view(
    side: &[u8],
    enabled: &[u8],
    mode: &[u8],
    flushing: &[u8],
    made: &[u8],
    of: &[u8],
    count: &[u8],
) -> Option<TextReply>
    ensures some { IfSome result (λ reply. side.now ∷ enabled.now ∷ mode.now ∷ flushing.now ∷ made.now ∷ of.now ∷ count.now ∷ [] ≡ reply_words reply) }
    ensures reply { IfSome result IsReply }
    ensures is { result ≡ view_of side.now enabled.now mode.now (flushing.now ∷ made.now ∷ of.now ∷ count.now ∷ []) }
{
    if flushing != b"flushing".as_slice() {
        return None;
    }
    if of != b"of".as_slice() {
        return None;
    }
    let Some(view) = view_with(side, enabled, mode, true, made, count) else {
        return None;
    };
    Some(TextReply::Port(view))
}

fn view_in(side: &[u8], enabled: &[u8], mode: &[u8], words: &[&[u8]]) -> Option<TextReply>
    ensures some { IfSome result (λ reply. side.now ∷ enabled.now ∷ mode.now ∷ texts words.now ≡ reply_words reply) }
    ensures reply { IfSome result IsReply }
    ensures is { result ≡ view_of side.now enabled.now mode.now (texts words.now) }
{
    match words {
        [made, of, count] => still_view(side, enabled, mode, made, of, count),
        [flushing, made, of, count] => {
            flushing_view(side, enabled, mode, flushing, made, of, count)
        }
        _ => None,
    }
}

/// A reply of two words or more that begins with a word of its own.
fn other_reply_in(first: &[u8], words: &[&[u8]]) -> Option<TextReply>
    ensures some { IfSome result (λ reply. first.now ∷ texts words.now ≡ reply_words reply) }
    ensures reply { IfSome result IsReply }
    ensures is { result ≡ other_reply_of first.now (texts words.now) }
{
    match words {
        [second] => reply_of_two(first, second),
        [second, third, rest @ ..] => view_in(first, second, third, rest),
        [] => None,
    }
}

fn longer_reply_in(first: &[u8], words: &[&[u8]]) -> Option<TextReply>
    requires { 0 < length words.now }
    ensures some { IfSome result (λ reply. first.now ∷ texts words.now ≡ reply_words reply) }
    ensures reply { IfSome result IsReply }
    ensures is { result ≡ reply_of (first.now ∷ texts words.now) }
{
    if first == b"idle".as_slice() {
        let Some(why) = why_in(words) else {
            return None;
        };
        Some(TextReply::Idle(why))
    } else if first == b"event".as_slice() {
        let Some(event) = event_in(words) else {
            return None;
        };
        Some(TextReply::Event(event))
    } else {
        other_reply_in(first, words)
    }
}

/// The reply that words say.
pub fn reply_in(words: &[&[u8]]) -> Option<TextReply>
    ensures some { IfSome result (λ reply. texts words.now ≡ reply_words reply) }
    ensures reply { IfSome result IsReply }
    ensures is { result ≡ reply_of (texts words.now) }
{
    match words {
        [word] => reply_of_one(word),
        [first, rest @ ..] => longer_reply_in(first, rest),
        [] => None,
    }
}
