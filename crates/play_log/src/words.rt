//! The words of acts, which a log makes once for all lines that say them.

ghost use Rattle.std.specs.Prelude.{◌≡◌, ◌<◌, true, [], IfOk, IfSome, length, slice_get, Some};
ghost use Rattle.act_text.specs.Texts.{act_text};
ghost use Rattle.play_log.specs.Places.{rest_text};
ghost use Rattle.play_log.specs.Spelled.{Begins, number_in, rest_spelled};

use crate::OutOfMemory;
use crate::line::Line;
use act_text::{ActText, Name, PortName, TextAct, TextReply, put_act};
use std::alloc::{AllocError, Global};
use std::marker::Model;

/// The words of an act: `ACT = REPLY`.
#[derive(Drop)]
pub(crate) struct Made {
    act: ActText,
    text: Vec<u8>,
}

/// Whether it is the same act with the same reply, one that comes again and again.
fn is_same(one: &ActText, other: &ActText) -> bool
    ensures { result ≡ true → one.now ≡ other.now }
{
    is_same_act(&one.act, &other.act) && is_same_reply(&one.reply, &other.reply)
}

fn is_same_name(one: &Name, other: &Name) -> bool
    ensures { result ≡ true → one.now ≡ other.now }
{
    one.as_bytes() == other.as_bytes()
}

fn is_same_port(one: &PortName, other: &PortName) -> bool
    ensures { result ≡ true → one.now ≡ other.now }
{
    one.index == other.index && is_same_name(&one.component, &other.component)
}

/// Whether it is the same act, one that comes again and again.
fn is_same_act(one: &TextAct, other: &TextAct) -> bool
    ensures { result ≡ true → one.now ≡ other.now }
{
    match (one, other) {
        (TextAct::Claim(one), TextAct::Claim(other)) => is_same_name(one, other),
        (TextAct::Finish(one), TextAct::Finish(other)) => is_same_name(one, other),
        (TextAct::Supply(one), TextAct::Supply(other)) => is_same_port(one, other),
        (TextAct::Release(one), TextAct::Release(other)) => is_same_port(one, other),
        (TextAct::Over(one), TextAct::Over(other)) => is_same_port(one, other),
        (TextAct::Back(one), TextAct::Back(other)) => is_same_port(one, other),
        _ => false,
    }
}

/// Whether it is the same reply to such an act.
fn is_same_reply(one: &TextReply, other: &TextReply) -> bool
    ensures { result ≡ true → one.now ≡ other.now }
{
    match (one, other) {
        (TextReply::Work, TextReply::Work) => true,
        (TextReply::Did, TextReply::Did) => true,
        _ => false,
    }
}

/// Words of acts. At each slot the number is known of the words that were taken there last, so that they aren't sought.
#[derive(Drop)]
pub(crate) struct Words {
    alloc: Global,
    made: Vec<Made>,
    known: Vec<Option<u16>>,
}

impl Model for Words {
    ghost use Rattle.std.specs.Prelude.{ℕ, List, map};
    ghost use Rattle.play_log.specs.Spelled.{AreMade};

    ghost Value = { List (List ℕ) };

    ghost view = { λ words. map (λ it. it.text.items) words.made.items };

    ghost invariant = { λ words. AreMade words.made.items };
}

impl Words {
    /// No words, and so many slots.
    pub(crate) fn new(alloc: Global, slots: usize) -> Result<Words, OutOfMemory>
        ensures { IfOk result (λ words. words ≡ []) }
    {
        Ok(Words {
            alloc,
            made: Vec::new(alloc),
            known: vec![in alloc; None; slots]?,
        })
    }

    /// The line of an act that the pass made.
    pub(crate) fn line(
        &mut self,
        pass: u8,
        slot: Option<usize>,
        act: &ActText,
    ) -> Result<Line, OutOfMemory>
        ensures said { IfOk result (λ line. rest_spelled self.new line ≡ rest_text (record { pass = pass; said = act.now })) }
        ensures there { IfOk result (λ line. number_in line < length self.new) }
        ensures stay { Begins self.old self.new }
    {
        match act.reply {
            TextReply::Finished { frames } => {
                let did = ActText {
                    act: act.act,
                    reply: TextReply::Did,
                };
                let words = self.number_of(slot, &did)?;
                Ok(Line::Finished {
                    pass,
                    words,
                    frames,
                })
            }
            _ => {
                let words = self.number_of(slot, act)?;
                Ok(Line::Said { pass, words })
            }
        }
    }

    /// The number of the act's words.
    fn number_of(&mut self, slot: Option<usize>, act: &ActText) -> Result<u16, OutOfMemory>
        ensures there { IfOk result (λ number. slice_get self.new number ≡ Some (act_text act.now)) }
        ensures stay { Begins self.old self.new }
    {
        match slot {
            Some(slot) => self.number_at(slot, act),
            None => self.add(act),
        }
    }

    /// The number of the act's words, which the slot knows from then on.
    fn number_at(&mut self, slot: usize, act: &ActText) -> Result<u16, OutOfMemory>
        ensures there { IfOk result (λ number. slice_get self.new number ≡ Some (act_text act.now)) }
        ensures stay { Begins self.old self.new }
    {
        if let Some(number) = self.known_at(slot, act) {
            return Ok(number);
        }
        let number = self.add(act)?;
        self.keep(slot, number);
        Ok(number)
    }

    /// The number of the act's words, where the slot knows them.
    fn known_at(&self, slot: usize, act: &ActText) -> Option<u16>
        ensures { IfSome result (λ number. slice_get self.now number ≡ Some (act_text act.now)) }
    {
        let number = self.known_number(slot)?;
        match self.made.get(number as usize) {
            Some(made) => {
                if is_same(&made.act, act) {
                    Some(number)
                } else {
                    None
                }
            }
            None => None,
        }
    }

    /// What the slot knows.
    fn known_number(&self, slot: usize) -> Option<u16> {
        match self.known.get(slot) {
            Some(number) => *number,
            None => None,
        }
    }

    /// Makes the act's words.
    fn add(&mut self, act: &ActText) -> Result<u16, OutOfMemory>
        ensures there { IfOk result (λ number. slice_get self.new number ≡ Some (act_text act.now)) }
        ensures stay { Begins self.old self.new }
    {
        let Ok(number) = u16::try_from(self.made.len()) else {
            return Err(AllocError);
        };
        let mut text = Vec::new(self.alloc);
        put_act(act, &mut text)?;
        self.made.push(Made { act: *act, text })?;
        Ok(number)
    }

    /// The slot knows the words of that number.
    fn keep(&mut self, slot: usize, words: u16)
        ensures { self.new ≡ self.old }
    {
        if slot < self.known.len() {
            self.known[slot] = Some(words);
        }
    }

    /// The words of that number.
    pub(crate) fn at(&self, number: u16) -> &[u8]
        requires { number < length self.now }
        ensures { slice_get self.now number ≡ Some result.now }
    {
        self.made[number as usize].text.as_slice()
    }
}
