//! How a line of a clock's script is read: as nothing, a call, or a fault.

ghost use Rattle.std.specs.Prelude.{◌≡◌, ◌∷◌, ◌≤◌, ◌^◌, [], IfSome};
ghost use Rattle.std.specs.Fmt.{decimal};
ghost use Rattle.line_text.specs.Words.{words_of};
ghost use Rattle.line_text.specs.Lists.{texts};
ghost use Rattle.line_text.specs.ReadNumbers.{small_number};
ghost use Rattle.clock_core.specs.Clock.{HasMediaWithin};
ghost use Rattle.clock_core.specs.Script.{IsCall, Says, act_of, act_of_one, act_of_three, act_of_two, act_words, ask_of, call_of, call_words, moment_of, port_of, said_of, timed, timed_of, within};

use crate::{ClockAct, TimedAct};
use line_text::{LineWords, is_skipped, number_in, small_number_in};
use omx_types::ScriptWhy;
use std::str;

/// The greatest wall moment and media time.
const MOST: u64 = 1 << 53;

/// The greatest number of a port.
const PORTS: u32 = 7;

/// What a line of a script says.
#[derive(Clone, Copy)]
pub(crate) enum Said {
    Nothing,
    Call(TimedAct),
    Fault(ScriptWhy),
}

/// What a line says.
pub(crate) fn says(line: &[u8]) -> Said
    ensures { Says line.now result }
{
    match str::from_utf8(line) {
        Ok(_) => said_of(line),
        Err(_) => Said::Fault(ScriptWhy::NotText),
    }
}

fn said_of(line: &[u8]) -> Said
    ensures { result ≡ said_of (words_of line.now) }
{
    if is_skipped(line) {
        return Said::Nothing;
    }
    match call_in(line) {
        Some(call) => Said::Call(call),
        None => Said::Fault(ScriptWhy::BadWord),
    }
}

/// The call that a line asks for.
pub(crate) fn call_in(line: &[u8]) -> Option<TimedAct>
    ensures is { result ≡ call_of (words_of line.now) }
    ensures written { IfSome result (λ call. words_of line.now ≡ call_words call) }
    ensures within { IfSome result IsCall }
{
    match LineWords::of(line) {
        Some(words) => call_of(words.as_slice()),
        None => None,
    }
}

fn call_of(words: &[&[u8]]) -> Option<TimedAct>
    ensures is { result ≡ call_of (texts words.now) }
    ensures written { IfSome result (λ call. texts words.now ≡ call_words call) }
    ensures within { IfSome result IsCall }
{
    match words {
        [first, rest @ ..] => call_by(first, rest),
        _ => None,
    }
}

/// The call that the words ask for, if the first one is `at`.
fn call_by(first: &[u8], words: &[&[u8]]) -> Option<TimedAct>
    ensures is { result ≡ call_of (first.now ∷ texts words.now) }
    ensures written { IfSome result (λ call. first.now ∷ texts words.now ≡ call_words call) }
    ensures within { IfSome result IsCall }
{
    if first == b"at".as_slice() {
        timed_in(words)
    } else {
        None
    }
}

/// The call that the words behind `at` ask for.
fn timed_in(words: &[&[u8]]) -> Option<TimedAct>
    ensures is { result ≡ timed_of (texts words.now) }
    ensures written { IfSome result (λ call. texts words.now ≡ decimal call.wall ∷ act_words call.act) }
    ensures within { IfSome result IsCall }
{
    match words {
        [wall, rest @ ..] => timed(wall, rest),
        _ => None,
    }
}

fn timed(wall: &[u8], words: &[&[u8]]) -> Option<TimedAct>
    ensures is { result ≡ timed (moment_of wall.now) (act_of (texts words.now)) }
    ensures written { IfSome result (λ call. wall.now ∷ texts words.now ≡ decimal call.wall ∷ act_words call.act) }
    ensures within { IfSome result IsCall }
{
    match (moment_in(wall), act_of(words)) {
        (Some(wall), Some(act)) => Some(TimedAct { wall, act }),
        _ => None,
    }
}

/// The moment that a word is.
fn moment_in(word: &[u8]) -> Option<u64>
    ensures is { result ≡ moment_of word.now }
    ensures written { IfSome result (λ n. word.now ≡ decimal n) }
    ensures within { IfSome result (λ n. n ≤ 2 ^ 53) }
{
    match number_in(word) {
        Some(number) if number <= MOST => Some(number),
        _ => None,
    }
}

/// The mask that a word is.
fn mask_in(word: &[u8]) -> Option<u8>
    ensures is { result ≡ within 255 (small_number word.now) }
    ensures written { IfSome result (λ n. word.now ≡ decimal n) }
{
    match small_number_in(word) {
        Some(number) => u8::try_from(number).ok(),
        None => None,
    }
}

/// The port that a word is.
fn port_in(word: &[u8]) -> Option<u32>
    ensures is { result ≡ within 7 (small_number word.now) }
    ensures written { IfSome result (λ n. word.now ≡ decimal n) }
{
    match small_number_in(word) {
        Some(number) if number <= PORTS => Some(number),
        _ => None,
    }
}

fn act_of(words: &[&[u8]]) -> Option<ClockAct>
    ensures is { result ≡ act_of (texts words.now) }
    ensures written { IfSome result (λ act. texts words.now ≡ act_words act) }
    ensures within { IfSome result HasMediaWithin }
{
    match words {
        [one] => act_of_one(one),
        [one, two] => act_of_two(one, two),
        [one, two, three] => act_of_three(one, two, three),
        _ => None,
    }
}

fn act_of_one(name: &[u8]) -> Option<ClockAct>
    ensures is { result ≡ act_of_one name.now }
    ensures written { IfSome result (λ act. name.now ∷ [] ≡ act_words act) }
    ensures within { IfSome result HasMediaWithin }
{
    if name == b"stop".as_slice() {
        Some(ClockAct::Stop)
    } else if name == b"pass".as_slice() {
        Some(ClockAct::Pass)
    } else {
        None
    }
}

fn act_of_two(name: &[u8], number: &[u8]) -> Option<ClockAct>
    ensures is { result ≡ act_of_two name.now number.now }
    ensures written { IfSome result (λ act. name.now ∷ number.now ∷ [] ≡ act_words act) }
    ensures within { IfSome result HasMediaWithin }
{
    if name == b"start".as_slice() {
        match moment_in(number) {
            Some(media) => Some(ClockAct::Start(media)),
            None => None,
        }
    } else if name == b"scale".as_slice() {
        match small_number_in(number) {
            Some(scale) => Some(ClockAct::Scale(scale)),
            None => None,
        }
    } else if name == b"wait".as_slice() {
        match mask_in(number) {
            Some(mask) => Some(ClockAct::Wait(mask)),
            None => None,
        }
    } else if name == b"cancel".as_slice() {
        match number_in(number) {
            Some(id) => Some(ClockAct::Cancel(id)),
            None => None,
        }
    } else {
        None
    }
}

fn act_of_three(name: &[u8], number: &[u8], media: &[u8]) -> Option<ClockAct>
    ensures is { result ≡ act_of_three name.now number.now media.now }
    ensures written { IfSome result (λ act. name.now ∷ number.now ∷ media.now ∷ [] ≡ act_words act) }
    ensures within { IfSome result HasMediaWithin }
{
    if name == b"port".as_slice() {
        match (port_in(number), moment_in(media)) {
            (Some(port), Some(media)) => Some(ClockAct::Port { port, media }),
            _ => None,
        }
    } else if name == b"ask".as_slice() {
        match (number_in(number), moment_in(media)) {
            (Some(id), Some(media)) => Some(ClockAct::Ask { id, media }),
            _ => None,
        }
    } else {
        None
    }
}
