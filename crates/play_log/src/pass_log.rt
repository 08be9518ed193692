//! The lines of one pass of several, with the places of its acts.

ghost use Rattle.std.specs.Prelude.{◌≡◌, ◌<◌, ◌+◌, ◌∷◌, ◌++◌, [], List, ◌↔◌, true, false, IfOk, OnOk, OnErr, Some, length, option_map, slice_get};
ghost use Rattle.outside_io.specs.Causes.{HasCause};
ghost use Rattle.outside_io.specs.Keeping.{KeepsSink};
ghost use Rattle.play_log.specs.Gathering.{Puts};
ghost use Rattle.play_log.specs.Places.{IsKeptAt, PlacedLine, PlacedText, numbered, placed_of, rest_text, text_place};

use crate::OutOfMemory;
use crate::gathered::Gathered;
use crate::log::is_left_out;
use crate::log_text::put_line;
use crate::pieces::Pieces;
use crate::placed::Placed;
use crate::words::Words;
use act_text::ActText;
use outside_io::{Failed, Sink};
use std::alloc::{AllocError, Global};
use std::marker::Model;

/// The lines of a pass, as its acts are told one after the other, each with its place among the acts of all passes.
#[derive(Drop)]
pub struct PassLog {
    words: Words,
    lines: Pieces<Placed>,
    count: u64,
    broken: bool,
}

impl Model for PassLog {
    ghost use Rattle.std.specs.Prelude.{◌≡◌, length, map};
    ghost use Rattle.play_log.specs.Places.{AreSpelled, PassLogValue, placed_spelled};

    ghost Value = { PassLogValue };

    ghost view = { λ log. record { lines = map (placed_spelled log.words) log.lines; broken = log.broken } };

    ghost invariant = { λ log. (log.count ≡ length log.lines) × AreSpelled log.words log.lines };
}

impl PassLog {
    /// The lines of a pass that made no act yet. It takes memory for so many slots, as `Log::new` does.
    pub fn new(alloc: Global, slots: usize) -> Result<PassLog, OutOfMemory>
        ensures kept { IfOk result (IsKeptAt []) }
        ensures whole { IfOk result (λ log. log.broken ≡ false) }
    {
        Ok(PassLog {
            words: Words::new(alloc, slots)?,
            lines: Pieces::new(alloc),
            count: 0,
            broken: false,
        })
    }

    /// Adds the line of the pass's act at that place. An act whose reply is `idle`, `none` or `busy` has no line. Where memory is
    /// wanting the lines stay as they are, and no further one is taken. Of slots `Log::entry` says more.
    pub fn entry(
        &mut self,
        place: u64,
        pass: u8,
        slot: Option<usize>,
        act: &ActText,
    ) -> Result<(), OutOfMemory>
        ensures line { (lines : List PlacedLine) → IsKeptAt lines self.old → OnOk result (IsKeptAt (lines ++ placed_of place pass act.now) self.new) }
        ensures whole { OnOk result ((self.old.broken ≡ false) × (self.new.broken ≡ false)) }
        ensures broken { OnErr result (self.new ≡ record self.old { broken = true }) }
    {
        if self.broken {
            return Err(AllocError);
        }
        if is_left_out(&act.reply) {
            return Ok(());
        }
        let done = self.put(place, pass, slot, act);
        if done.is_err() {
            self.broken = true;
        }
        done
    }

    /// Whether each act that was told has its line.
    pub fn is_whole(&self) -> bool
        ensures { result ≡ true ↔ self.now.broken ≡ false }
    {
        !self.broken
    }

    /// How many lines there are.
    pub(crate) fn count(&self) -> u64
        ensures { result ≡ length self.now.lines }
    {
        self.count
    }

    /// The place of that line.
    pub(crate) fn place_at(&self, at: usize) -> Option<u64>
        ensures { result ≡ option_map text_place (slice_get self.now.lines at) }
    {
        match self.lines.get(at) {
            Some(placed) => Some(placed.place),
            None => None,
        }
    }

    /// That line comes behind what is gathered. Answers which line is the next.
    pub(crate) fn put_at<K: Sink>(
        &self,
        at: usize,
        number: u64,
        held: &mut Gathered,
        sink: &mut K,
    ) -> Result<usize, Failed>
        requires within { at < length self.now.lines }
        ensures puts { (t : PlacedText) → slice_get self.now.lines at ≡ Some t → Puts (K.told sink.old) (K.told sink.new) held.old.held held.new.held (numbered number t) result }
        ensures next { IfOk result (λ next. next ≡ at + 1) }
        ensures keeps_sink { KeepsSink K.Sink sink.old sink.new }
        ensures cause { HasCause (K.faults sink.old) (K.faults sink.new) result }
    {
        // The proof learns from it that there are fewer lines than 2^64.
        let _count = self.count;
        let Some(placed) = self.lines.get(at) else {
            unreachable!()
        };
        put_line(&self.words, number, placed.line, held, sink)?;
        Ok(at + 1)
    }

    /// Adds a line.
    fn put(
        &mut self,
        place: u64,
        pass: u8,
        slot: Option<usize>,
        act: &ActText,
    ) -> Result<(), OutOfMemory>
        ensures line { OnOk result (self.new.lines ≡ self.old.lines ++ record { place = place; rest = rest_text (record { pass = pass; said = act.now }) } ∷ []) }
        ensures whole { self.new.broken ≡ self.old.broken }
        ensures kept { OnErr result (self.new ≡ self.old) }
    {
        let Some(count) = self.count.checked_add(1) else {
            return Err(AllocError);
        };
        let line = self.words.line(pass, slot, act)?;
        self.lines.push(Placed { place, line })?;
        self.count = count;
        Ok(())
    }
}
