//! The text of a whole log, which is made as it is written.

ghost use Rattle.std.specs.Prelude.{ℕ, ◌≡◌, ◌≢◌, ◌++◌, ◌+◌, ◌<◌, ◌≤◌, ◌^◌, [], Err, Some, IfErr, IfOk, OnOk, OnErr, IsTrue, IsFalse, All, List, codes, false, length, map};
ghost use Rattle.std.specs.Fmt.{decimal};
ghost use Rattle.std.specs.List.{flat_map};
ghost use Rattle.std.specs.Io.KnownBytes.{append_known};
ghost use Rattle.outside_io.specs.Causes.{HasCause};
ghost use Rattle.outside_io.specs.Files.{GoesOn, SameBut, with_name};
ghost use Rattle.outside_io.specs.Keeping.{KeepsSink};
ghost use Rattle.outside_io.specs.Moves.{AppendsFront};
ghost use Rattle.outside_io.specs.Whole.{HasWriteReason, IsKeptOrFrontOf};
ghost use Rattle.play_log.specs.Gathering.{Puts};
ghost use Rattle.play_log.specs.Lines.{log_text};
ghost use Rattle.play_log.specs.Merged.{merged_all};
ghost use Rattle.play_log.specs.Places.{AreKeptAt, PlacedLine, line_place};
ghost use Rattle.play_log.specs.Spelled.{AreThere, line_spelled, number_in, rest_spelled, spelled_from};

use crate::OutOfMemory;
use crate::form::Form;
use crate::gathered::Gathered;
use crate::line::Line;
use crate::listing::Listing;
use crate::pages::Pages;
use crate::pass_log::PassLog;
use crate::pieces::Pieces;
use crate::words::Words;
use outside_io::{Failed, Media, Refused, Sink};
use std::alloc::Global;
use std::marker::Model;

/// The text of a log, with `end` as its last line.
#[derive(Drop)]
pub struct LogText {
    form: Form,
}

impl Model for LogText {
    ghost use Rattle.std.specs.Prelude.{ℕ, List};
    ghost use Rattle.play_log.specs.Forms.{text_in};

    ghost Value = { List ℕ };

    ghost view = { λ text. text_in text.form };
}

impl LogText {
    pub(crate) fn new(words: Words, lines: Pieces<Line>, count: u64) -> LogText
        requires count { count ≡ length lines }
        requires there { AreThere words lines }
        ensures { result ≡ spelled_from words 1 lines ++ codes "end\n" }
    {
        LogText {
            form: Form::Listed(Listing::new(words, lines, count)),
        }
    }

    /// The text of the lines of at most nine passes, in the order of their places. There is none where memory was wanting for a line.
    pub fn merged(pages: Vec<PassLog>) -> Result<LogText, OutOfMemory>
        requires { length pages.items ≤ 9 }
        ensures text { (lists : List (List PlacedLine)) → AreKeptAt lists pages.items
            → IfOk result (λ text. text ≡ log_text (map (λ l. l.line) (merged_all line_place lists))) }
        ensures whole { OnOk result (All (λ page. page.broken ≡ false) pages.items) }
    {
        Ok(LogText {
            form: Form::Merged(Pages::new(pages)?),
        })
    }

    /// Writes the text.
    fn write<K: Sink>(&self, held: &mut Gathered, sink: &mut K) -> Result<(), Failed>
        requires { held.old.held ≡ [] }
        ensures whole { OnOk result (K.told sink.new ≡ append_known (K.told sink.old) self.now) }
        ensures front { AppendsFront (K.told sink.old) (K.told sink.new) self.now }
        ensures keeps_sink { KeepsSink K.Sink sink.old sink.new }
        ensures cause { HasCause (K.faults sink.old) (K.faults sink.new) result }
    {
        self.put(held, sink)?;
        held.flush(sink)
    }

    /// The text comes behind what is gathered.
    fn put<K: Sink>(&self, held: &mut Gathered, sink: &mut K) -> Result<(), Failed>
        ensures puts { Puts (K.told sink.old) (K.told sink.new) held.old.held held.new.held self.now result }
        ensures keeps_sink { KeepsSink K.Sink sink.old sink.new }
        ensures cause { HasCause (K.faults sink.old) (K.faults sink.new) result }
    {
        match &self.form {
            Form::Listed(listing) => listing.put(held, sink),
            Form::Merged(pages) => pages.put(held, sink),
        }
    }
}

/// The lines of all pieces come behind what is gathered. Answers how many they are: at most `most`.
pub(crate) fn put_pieces<K: Sink>(
    words: &Words,
    pieces: &[Vec<Line>],
    most: u64,
    held: &mut Gathered,
    sink: &mut K,
) -> Result<u64, Failed>
    requires there { AreThere words.now (flat_map (λ piece. piece.items) pieces.now) }
    requires few { length (flat_map (λ piece. piece.items) pieces.now) ≤ most }
    ensures number { IfOk result (λ number. number ≡ length (flat_map (λ piece. piece.items) pieces.now)) }
    ensures puts { Puts (K.told sink.old) (K.told sink.new) held.old.held held.new.held (spelled_from words.now 1 (flat_map (λ piece. piece.items) pieces.now)) result }
    ensures keeps_sink { KeepsSink K.Sink sink.old sink.new }
    ensures cause { HasCause (K.faults sink.old) (K.faults sink.new) result }
{
    // The proof learns from it that there are fewer lines than 2^64.
    let _most = most;
    let mut number = 0;
    for piece in pieces {
        number = put_lines(words, number, piece.as_slice(), held, sink)?;
    }
    Ok(number)
}

/// The lines come behind what is gathered. Before them stand so many. Answers how many there are then.
pub(crate) fn put_lines<K: Sink>(
    words: &Words,
    before: u64,
    lines: &[Line],
    held: &mut Gathered,
    sink: &mut K,
) -> Result<u64, Failed>
    requires there { AreThere words.now lines.now }
    requires few { before + length lines.now < 2 ^ 64 }
    ensures number { IfOk result (λ number. number ≡ before + length lines.now) }
    ensures puts { Puts (K.told sink.old) (K.told sink.new) held.old.held held.new.held (spelled_from words.now (before + 1) lines.now) result }
    ensures keeps_sink { KeepsSink K.Sink sink.old sink.new }
    ensures cause { HasCause (K.faults sink.old) (K.faults sink.new) result }
{
    let mut number = before;
    for line in lines {
        number += 1;
        put_line(words, number, *line, held, sink)?;
    }
    Ok(number)
}

/// The line comes behind what is gathered.
pub(crate) fn put_line<K: Sink>(
    words: &Words,
    number: u64,
    line: Line,
    held: &mut Gathered,
    sink: &mut K,
) -> Result<(), Failed>
    requires { number_in line < length words.now }
    ensures puts { Puts (K.told sink.old) (K.told sink.new) held.old.held held.new.held (line_spelled words.now number line) result }
    ensures keeps_sink { KeepsSink K.Sink sink.old sink.new }
    ensures cause { HasCause (K.faults sink.old) (K.faults sink.new) result }
{
    held.put_number(number, sink)?;
    held.put(b" ", sink)?;
    put_rest(words, line, held, sink)?;
    held.put(b"\n", sink)
}

/// What the line says behind its number comes behind what is gathered.
fn put_rest<K: Sink>(
    words: &Words,
    line: Line,
    held: &mut Gathered,
    sink: &mut K,
) -> Result<(), Failed>
    requires { number_in line < length words.now }
    ensures puts { Puts (K.told sink.old) (K.told sink.new) held.old.held held.new.held (rest_spelled words.now line) result }
    ensures keeps_sink { KeepsSink K.Sink sink.old sink.new }
    ensures cause { HasCause (K.faults sink.old) (K.faults sink.new) result }
{
    match line {
        Line::Said { pass, words: at } => put_said(pass, words.at(at), held, sink),
        Line::Finished {
            pass,
            words: at,
            frames,
        } => put_finished(pass, words.at(at), frames, held, sink),
    }
}

/// `PASS WORDS` comes behind what is gathered.
fn put_said<K: Sink>(
    pass: u8,
    words: &[u8],
    held: &mut Gathered,
    sink: &mut K,
) -> Result<(), Failed>
    ensures puts { Puts (K.told sink.old) (K.told sink.new) held.old.held held.new.held (decimal pass ++ codes " " ++ words.now) result }
    ensures keeps_sink { KeepsSink K.Sink sink.old sink.new }
    ensures cause { HasCause (K.faults sink.old) (K.faults sink.new) result }
{
    held.put_number(pass as u64, sink)?;
    held.put(b" ", sink)?;
    held.put(words, sink)
}

/// `PASS WORDS FRAMES` comes behind what is gathered.
fn put_finished<K: Sink>(
    pass: u8,
    words: &[u8],
    frames: u32,
    held: &mut Gathered,
    sink: &mut K,
) -> Result<(), Failed>
    ensures puts { Puts (K.told sink.old) (K.told sink.new) held.old.held held.new.held (decimal pass ++ codes " " ++ words.now ++ codes " " ++ decimal frames) result }
    ensures keeps_sink { KeepsSink K.Sink sink.old sink.new }
    ensures cause { HasCause (K.faults sink.old) (K.faults sink.new) result }
{
    put_said(pass, words, held, sink)?;
    held.put(b" ", sink)?;
    held.put_number(frames as u64, sink)
}

/// Writes a whole log, and closes it. `Failed` is said of the opening, a write or the closing.
pub fn write_log<M: Media>(
    alloc: Global,
    media: &mut M,
    name: &str,
    text: &LogText,
) -> Result<(), Refused>
    ensures goes_on { GoesOn (M.outside media.old) (M.outside media.new) }
    ensures others { IsTrue (M.outside media.old).tells → SameBut name.now (M.outside media.old) (M.outside media.new) }
    ensures held { IsTrue (M.outside media.old).tells → OnOk result ((M.outside media.new).file name.now ≡ Some text.now) }
    ensures front { IsTrue (M.outside media.old).tells →
        OnErr result (IsKeptOrFrontOf ((M.outside media.old).file name.now) ((M.outside media.new).file name.now) text.now) }
    ensures reason { IfErr result (HasWriteReason name.now (M.outside media.old) (M.outside media.new)) }
    ensures absences { IsFalse ((M.outside media.old).may_refuse name.now) → (M.outside media.new).absences ≡ (M.outside media.old).absences }
    ensures write_stays { result ≢ Err Refused.Failed → (M.outside media.new).write_faults ≡ (M.outside media.old).write_faults }
    ensures absences_stay { result ≢ Err Refused.Absent → (M.outside media.new).absences ≡ (M.outside media.old).absences }
    ensures read_faults { (M.outside media.new).read_faults ≡ (M.outside media.old).read_faults }
    ensures asked { result ≢ Err Refused.OutOfMemory → (M.outside media.new).openings ≡ with_name name.now 1 (M.outside media.old).openings }
    ensures failed_names { IsTrue (M.outside media.old).tells →
        (times : ℕ) × ((M.outside media.new).failed_writes ≡ with_name name.now times (M.outside media.old).failed_writes) }
{
    let Ok(mut held) = Gathered::new(alloc) else {
        return Err(Refused::OutOfMemory);
    };
    let mut sink = media.sink(alloc, name)?;
    let written = text.write(&mut held, &mut sink);
    let closed = media.close_sink(sink);
    match written {
        Err(_) => Err(Refused::Failed),
        Ok(()) => match closed {
            Ok(()) => Ok(()),
            Err(_) => Err(Refused::Failed),
        },
    }
}
