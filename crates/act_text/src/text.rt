//! The text of an act with its reply is appended and read back, and that of a reply alone is appended.

ghost use Rattle.std.specs.Prelude.{◌≡◌, ◌∷◌, ◌++◌, ◌+◌, ◌≤◌, ◌<◌, [], ℕ, List, Ok, Some, OnOk, OnErr, IfSome, IfOk, IfErr, length, take, drop, codes};
ghost use Rattle.std.specs.Str.{bytes_eq};
ghost use Rattle.act_text.specs.Acts.{act_words};
ghost use Rattle.act_text.specs.Replies.{reply_words};
ghost use Rattle.act_text.specs.Texts.{act_text, text_words, text_of, before_equals, after_equals, IsActText};
ghost use Rattle.line_text.specs.Lists.{texts, spaced};
ghost use Rattle.act_text.specs.Words.{IsGrown};

use crate::put_acts::put_act_words;
use crate::put_replies::put_reply_words;
use crate::read_acts::act_in;
use crate::read_replies::reply_in;
use crate::words::is_spaced;
use crate::{OutOfMemory, TextAct, TextReply};
use line_text::{BadWord, LineWords};

/// An act with its reply.
#[derive(Clone, Copy)]
pub struct ActText {
    pub act: TextAct,
    pub reply: TextReply,
}

/// Appends `ACT = REPLY`.
pub fn put_act(act: &ActText, out: &mut Vec<u8>) -> Result<(), OutOfMemory>
    ensures ok { OnOk result (out.new.items ≡ out.old.items ++ act_text act.now) }
    ensures err { OnErr result (out.new.items ≡ out.old.items) }
{
    let len = out.len();
    let done = put_text(act, out);
    if done.is_err() {
        out.truncate(len);
    }
    done
}

/// Appends the text of a reply.
pub fn put_reply(reply: &TextReply, out: &mut Vec<u8>) -> Result<(), OutOfMemory>
    ensures ok { OnOk result (out.new.items ≡ out.old.items ++ spaced (reply_words reply.now)) }
    ensures err { OnErr result (out.new.items ≡ out.old.items) }
{
    let len = out.len();
    let done = put_reply_words(reply, out);
    if done.is_err() {
        out.truncate(len);
    }
    done
}

fn put_text(act: &ActText, out: &mut Vec<u8>) -> Result<(), OutOfMemory>
    ensures ok { OnOk result (out.new.items ≡ out.old.items ++ act_text act.now) }
    ensures err { OnErr result (IsGrown out.old.items out.new.items) }
{
    put_act_words(&act.act, out)?;
    put_equals(out)?;
    put_reply_words(&act.reply, out)
}

fn put_equals(out: &mut Vec<u8>) -> Result<(), OutOfMemory>
    ensures ok { OnOk result (out.new.items ≡ out.old.items ++ (32 ∷ 61 ∷ 32 ∷ [])) }
    ensures err { OnErr result (IsGrown out.old.items out.new.items) }
{
    out.extend_from_slice(b" = ")
}

/// The act and the reply of a text. A fault's place is that of the text, 0.
pub fn read_act(line: &[u8]) -> Result<ActText, BadWord>
    ensures some { IfOk result (λ text. line.now ≡ act_text text) }
    ensures text { IfOk result IsActText }
    ensures only { (text : ActText) → IsActText text → line.now ≡ act_text text → result ≡ Ok text }
    ensures place { IfErr result (λ bad. bad.place ≡ 0) }
{
    match text_in(line) {
        Some(text) => Ok(text),
        None => Err(BadWord { place: 0 }),
    }
}

fn text_in(line: &[u8]) -> Option<ActText>
    ensures some { IfSome result (λ text. line.now ≡ act_text text) }
    ensures text { IfSome result IsActText }
    ensures only { (text : ActText) → IsActText text → line.now ≡ act_text text → result ≡ Some text }
{
    let Some(words) = LineWords::of(line) else {
        return None;
    };
    let words = words.as_slice();
    if is_spaced(line, words) {
        text_of_words(words)
    } else {
        None
    }
}

/// The act and the reply that words say.
fn text_of_words(words: &[&[u8]]) -> Option<ActText>
    ensures some { IfSome result (λ text. texts words.now ≡ text_words text) }
    ensures text { IfSome result IsActText }
    ensures is { result ≡ text_of (texts words.now) }
{
    let place = equals_in(words);
    if place == words.len() {
        return None;
    }
    let (act, _) = words.split_at(place);
    let (_, reply) = words.split_at(place + 1);
    let Some(act) = act_in(act) else {
        return None;
    };
    let Some(reply) = reply_in(reply) else {
        return None;
    };
    Some(ActText { act, reply })
}

/// The place of the first `=`, or the number of words.
fn equals_in(words: &[&[u8]]) -> usize
    ensures within { result ≤ length words.now }
    ensures before { texts (take result words.now) ≡ before_equals (texts words.now) }
    ensures after { texts (drop (result + 1) words.now) ≡ after_equals (texts words.now) }
    ensures equals { result < length words.now → texts words.now ≡ texts (take result words.now) ++ (codes "=" ∷ texts (drop (result + 1) words.now)) }
{
    for (place, word) in words.iter().enumerate() {
        if is_equals(word) {
            return place;
        }
    }
    words.len()
}

fn is_equals(word: &[u8]) -> bool
    ensures { result ≡ bytes_eq word.now (codes "=") }
{
    word == b"=".as_slice()
}
