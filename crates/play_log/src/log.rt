//! The log of a play: what is kept of each act that is told, and which acts have no line.

ghost use Rattle.std.specs.Prelude.{◌≡◌, ◌∷◌, ◌++◌, [], List, ◌↔◌, true, false, IfOk, OnOk, OnErr};
ghost use Rattle.play_log.specs.Lines.{LogLine, lines_of, log_text, is_left_out};
ghost use Rattle.play_log.specs.Kept.{LogValue, IsKept};
ghost use Rattle.play_log.specs.Entries.{Entry, is_unprinted};
ghost use Rattle.play_log.specs.Logged.{IsLogged, Keeps};
ghost use Rattle.play_log.specs.Saying.{Says};
ghost use Rattle.play_log.specs.Scenes.{Scene};

use crate::OutOfMemory;
use crate::line::Line;
use crate::log_text::LogText;
use crate::pieces::Pieces;
use crate::words::Words;
use act_text::{ActText, TextReply, law_of_texts};
use std::alloc::{AllocError, Global};
use std::marker::Model;

/// The lines of a log, as the acts are told one after the other. Each takes eight bytes, and the words of acts are kept once.
#[derive(Drop)]
pub struct Log {
    words: Words,
    lines: Pieces<Line>,
    count: u64,
    broken: bool,
}

impl Model for Log {
    ghost use Rattle.std.specs.Prelude.{◌≡◌, length};
    ghost use Rattle.play_log.specs.Kept.{LogValue};
    ghost use Rattle.play_log.specs.Spelled.{AreThere, spelled_from};

    ghost Value = { LogValue };

    ghost view = { λ log. record { text = spelled_from log.words 1 log.lines; count = log.count; broken = log.broken } };

    ghost invariant = { λ log. (log.count ≡ length log.lines) × AreThere log.words log.lines };
}

impl Log {
    /// A log without a line, which is whole. It takes memory for so many slots, each of which knows the words of an act.
    pub fn new(alloc: Global, slots: usize) -> Result<Log, OutOfMemory>
        ensures kept { IfOk result (IsKept []) }
        ensures whole { IfOk result (λ log. log.broken ≡ false) }
        ensures history { IfOk result (λ log. (s : Scene) → Keeps s [] log) }
    {
        Ok(Log {
            words: Words::new(alloc, slots)?,
            lines: Pieces::new(alloc),
            count: 0,
            broken: false,
        })
    }

    /// Adds the line of an act that the pass made, with the next number. An act whose reply is `idle`, `none` or
    /// `busy` has no line. Where memory is wanting the log stays as it is, and takes no further line. The words of an act are
    /// taken again where it is the one that was told last at the slot. Which slots are used for what is the caller's choice; an act
    /// that comes seldom has none.
    pub fn entry(&mut self, pass: u8, slot: Option<usize>, act: &ActText) -> Result<(), OutOfMemory>
        ensures line { (lines : List LogLine) → IsKept lines self.old → OnOk result (IsKept (lines ++ lines_of pass act.now) self.new) }
        ensures whole { OnOk result ((self.old.broken ≡ false) × (self.new.broken ≡ false)) }
        ensures broken { OnErr result (self.new ≡ record self.old { broken = true }) }
        ensures history { (s : Scene) (history : List Entry) (entry : Entry) → Keeps s history self.old
            → Says s (record { pass = pass; said = act.now }) entry → is_unprinted entry.reply ≡ false → Keeps s (history ++ entry ∷ []) self.new }
    {
        law_of_texts(act);
        self.add(pass, slot, act)
    }

    /// Whether each act that was told has its line.
    pub fn is_whole(&self) -> bool
        ensures { result ≡ true ↔ self.now.broken ≡ false }
    {
        !self.broken
    }

    /// The text of the log, whose last line is `end`. There is none where memory was wanting.
    pub fn finish(self) -> Result<LogText, OutOfMemory>
        ensures text { (lines : List LogLine) → IsKept lines self → IfOk result (λ text. text ≡ log_text lines) }
        ensures whole { OnOk result (self.broken ≡ false) }
        ensures logged { (s : Scene) (history : List Entry) → Keeps s history self → IfOk result (IsLogged s history) }
    {
        self.with_end()
    }

    fn add(&mut self, pass: u8, slot: Option<usize>, act: &ActText) -> Result<(), OutOfMemory>
        ensures line { (lines : List LogLine) → IsKept lines self.old → OnOk result (IsKept (lines ++ lines_of pass act.now) self.new) }
        ensures whole { OnOk result ((self.old.broken ≡ false) × (self.new.broken ≡ false)) }
        ensures broken { OnErr result (self.new ≡ record self.old { broken = true }) }
    {
        if self.broken {
            return Err(AllocError);
        }
        if is_left_out(&act.reply) {
            return Ok(());
        }
        let done = self.put(pass, slot, act);
        if done.is_err() {
            self.broken = true;
        }
        done
    }

    /// Adds a line.
    fn put(&mut self, pass: u8, slot: Option<usize>, act: &ActText) -> Result<(), OutOfMemory>
        ensures line { (lines : List LogLine) → IsKept lines self.old → OnOk result (IsKept (lines ++ record { pass = pass; said = act.now } ∷ []) self.new) }
        ensures whole { self.new.broken ≡ self.old.broken }
        ensures kept { OnErr result (self.new ≡ self.old) }
    {
        let Some(count) = self.count.checked_add(1) else {
            return Err(AllocError);
        };
        let line = self.words.line(pass, slot, act)?;
        self.lines.push(line)?;
        self.count = count;
        Ok(())
    }

    fn with_end(self) -> Result<LogText, OutOfMemory>
        ensures text { (lines : List LogLine) → IsKept lines self → IfOk result (λ text. text ≡ log_text lines) }
        ensures whole { OnOk result (self.broken ≡ false) }
    {
        let Log {
            words,
            lines,
            count,
            broken,
        } = self;
        if broken {
            return Err(AllocError);
        }
        Ok(LogText::new(words, lines, count))
    }
}

/// Whether an act with such a reply has no line.
pub(crate) fn is_left_out(reply: &TextReply) -> bool
    ensures { result ≡ is_left_out reply.now }
{
    match reply {
        TextReply::Idle(_) => true,
        TextReply::NoNote => true,
        TextReply::Busy => true,
        _ => false,
    }
}
