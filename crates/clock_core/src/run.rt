//! A run of a clock's script: it is read as a whole, then each call is made and its answer and notes written.

ghost use Rattle.std.specs.Prelude.{◌≡◌, ◌≢◌, ◌∷◌, ◌<◌, ◌≤◌, ◌+◌, ℕ, List, length, IsUtf8, OnOk, IfOk, IfErr, IfSome, Err};
ghost use Rattle.outside_io.specs.Keeping.{KeepsSink};
ghost use Rattle.outside_io.specs.Writings.{WritesOn, WritesUntil};
ghost use Rattle.std.specs.Io.KnownBytes.{append_known};
ghost use Rattle.line_text.specs.Lines.{lines_of};
ghost use Rattle.line_text.specs.Words.{words_of};
ghost use Rattle.omx_types.specs.declared.fault.Fault.TheVariants as faults;
ghost use Rattle.omx_types.specs.declared.fault.ScriptWhy.{ScriptWhy as Why};
ghost use Rattle.clock_core.specs.declared.script.Said.TheVariants as said;
ghost use Rattle.clock_core.specs.Clock.{opening, after_call};
ghost use Rattle.clock_core.specs.Script.{AreGood, Begins, FaultsFrom, FaultsIn, IsCall, IsFaulty, IsGoodLine, IsScript, Says, call_words, clock_words};
ghost use Rattle.clock_core.specs.Printed.{IsStopped, call_text, calls_in, clock_text, printed};
ghost use Rattle.clock_core.specs.Running.{AddsCall, IsFaultIn, IsRun, IsWriteFault, notes_in};

use crate::script::{Said, call_in, says};
use crate::text::{CallText, put_line, put_notes};
use crate::{Clock, ClockRefusal, Fulfilled, TimedAct};
use line_text::{is_first_line, is_skipped, next_line};
use omx_types::{Fault, ScriptWhy};
use outside_io::{Sink, write_all};
use std::str;

/// The most bytes that a script has.
const MOST_BYTES: usize = 65_536;

/// Runs a clock's script, and writes each call with its answer and its notes. The whole script is read before
/// the first call is made, so one that is faulty writes nothing.
pub fn run_clock<O: Sink>(bytes: &[u8], out: &mut O) -> Result<(), Fault>
    ensures whole { OnOk result (O.told out.new ≡ append_known (O.told out.old) (clock_text bytes.now)) }
    ensures script { OnOk result (IsScript bytes.now) }
    ensures stopped { IfErr result (IsStopped bytes.now (O.told out.old) (O.told out.new) (O.faults out.old) (O.faults out.new)) }
    ensures faulty { (line : ℕ) (why : Why) → IsFaulty bytes.now line why → result ≡ Err (faults.Script line why) }
    ensures stays { result ≢ Err faults.WriteFault → O.faults out.new ≡ O.faults out.old }
    ensures keeps_sink { KeepsSink O.Sink out.old out.new }
    ensures writing { WritesUntil faults.WriteFault (O.writing out.old) (O.writing out.new) result }
{
    run_lines(lines_in(bytes)?, out)
}

fn fault(line: u32, why: ScriptWhy) -> Fault
    ensures { result ≡ faults.Script line why }
{
    Fault::Script { line, why }
}

/// The lines behind the first one of a text that is a clock's script.
fn lines_in(bytes: &[u8]) -> Result<&[u8], Fault>
    ensures begun { IfOk result (λ lines. Begins bytes.now (lines_of lines.now)) }
    ensures good { IfOk result (λ lines. AreGood (lines_of lines.now)) }
    ensures short { IfOk result (λ lines. length lines.now < 65536) }
    ensures faulty { IfErr result (IsFaultIn (IsFaulty bytes.now)) }
{
    if bytes.len() > MOST_BYTES {
        return Err(fault(0, ScriptWhy::TooLong));
    }
    match next_line(bytes) {
        None => Err(fault(1, ScriptWhy::FirstLine)),
        Some((first, rest)) => {
            begin(first)?;
            read_lines(rest)?;
            Ok(rest)
        }
    }
}

/// Whether a line is the first one of a clock's script.
fn begin(line: &[u8]) -> Result<(), Fault>
    ensures text { OnOk result (IsUtf8 line.now) }
    ensures words { OnOk result (words_of line.now ≡ clock_words) }
    ensures faulty { IfErr result (IsFaultIn (λ at why. (lines : List (List ℕ)) → FaultsIn (line.now ∷ lines) at why)) }
{
    match str::from_utf8(line) {
        Ok(_) => {
            if is_first_line(line, b"clock") {
                Ok(())
            } else {
                Err(fault(1, ScriptWhy::FirstLine))
            }
        }
        Err(_) => Err(fault(1, ScriptWhy::NotText)),
    }
}

/// Reads the lines behind the first one, up to the first fault.
fn read_lines(text: &[u8]) -> Result<(), Fault>
    requires { length text.now < 65536 }
    ensures good { OnOk result (AreGood (lines_of text.now)) }
    ensures faulty { IfErr result (IsFaultIn (FaultsFrom 2 (lines_of text.now))) }
{
    let mut rest = text;
    let mut number = 2;
    while let Some((line, behind)) = next_line(rest) {
        read_line(number, line)?;
        rest = behind;
        number += 1;
    }
    Ok(())
}

fn read_line(number: u32, line: &[u8]) -> Result<(), Fault>
    ensures good { OnOk result (IsGoodLine line.now) }
    ensures faulty { IfErr result (IsFaultIn (λ at why. Says line.now (said.Fault why) × (at ≡ number))) }
{
    match says(line) {
        Said::Fault(why) => Err(fault(number, why)),
        _ => Ok(()),
    }
}

/// Makes the calls of the lines, one after the other, and writes what they come to.
fn run_lines<O: Sink>(text: &[u8], out: &mut O) -> Result<(), Fault>
    requires { length text.now < 65536 }
    ensures whole { OnOk result (O.told out.new ≡ append_known (O.told out.old) (printed 1 opening (calls_in (lines_of text.now)))) }
    ensures failed { IfErr result (IsWriteFault (O.faults out.old) (O.faults out.new) (O.told out.old) (O.told out.new) (printed 1 opening (calls_in (lines_of text.now)))) }
    ensures stays { OnOk result (O.faults out.new ≡ O.faults out.old) }
    ensures keeps_sink { KeepsSink O.Sink out.old out.new }
    ensures writing { WritesOn (O.writing out.old) (O.writing out.new) result }
{
    let mut clock = Clock::new();
    let mut number: u64 = 1;
    let mut rest = text;
    while let Some((line, behind)) = next_line(rest) {
        number = run_line(&mut clock, number, line, out)?;
        rest = behind;
    }
    write(out, b"end\n")
}

/// Makes the call of a line, if it asks for one, and answers the number of the next one.
fn run_line<O: Sink>(clock: &mut Clock, number: u64, line: &[u8], out: &mut O) -> Result<u64, Fault>
    requires { number < 65538 }
    ensures ran { IfOk result (λ next. IsRun number clock.old line.now next clock.new (O.told out.old) (O.told out.new)) }
    ensures close { IfOk result (λ next. next ≤ number + 1) }
    ensures failed { IfErr result (λ fault. (lines : List (List ℕ)) → IsWriteFault (O.faults out.old) (O.faults out.new) (O.told out.old) (O.told out.new) (printed number clock.old (calls_in (line.now ∷ lines))) fault) }
    ensures stays { OnOk result (O.faults out.new ≡ O.faults out.old) }
    ensures keeps_sink { KeepsSink O.Sink out.old out.new }
    ensures writing { WritesOn (O.writing out.old) (O.writing out.new) result }
{
    match asked_by(line) {
        Some(call) => {
            run_call(clock, number, call, out)?;
            Ok(number + 1)
        }
        None => Ok(number),
    }
}

/// The call that a line asks for.
fn asked_by(line: &[u8]) -> Option<TimedAct>
    ensures asked { AddsCall (words_of line.now) result }
    ensures written { IfSome result (λ call. words_of line.now ≡ call_words call) }
    ensures within { IfSome result IsCall }
{
    if is_skipped(line) {
        None
    } else {
        call_in(line)
    }
}

/// Makes a call, and writes its line with the answer and a line for each note.
fn run_call<O: Sink>(
    clock: &mut Clock,
    number: u64,
    call: TimedAct,
    out: &mut O,
) -> Result<(), Fault>
    requires { IsCall call }
    ensures clock { clock.new ≡ after_call clock.old call.wall call.act }
    ensures whole { OnOk result (O.told out.new ≡ append_known (O.told out.old) (call_text number clock.old (call_words call) call)) }
    ensures failed { IfErr result (IsWriteFault (O.faults out.old) (O.faults out.new) (O.told out.old) (O.told out.new) (call_text number clock.old (call_words call) call)) }
    ensures stays { OnOk result (O.faults out.new ≡ O.faults out.old) }
    ensures keeps_sink { KeepsSink O.Sink out.old out.new }
    ensures writing { WritesOn (O.writing out.old) (O.writing out.new) result }
{
    let text = text_of(clock, number, call);
    write(out, text.as_slice())
}

/// Makes a call, and answers its text.
fn text_of(clock: &mut Clock, number: u64, call: TimedAct) -> CallText
    requires { IsCall call }
    ensures clock { clock.new ≡ after_call clock.old call.wall call.act }
    ensures text { result.items ≡ call_text number clock.old (call_words call) call }
{
    let mut notes = [Fulfilled::default(); 64];
    let answer = clock.call(call.wall, call.act, &mut notes);
    let mut text = CallText::new();
    put_line(&mut text, number, call, answer);
    put_notes(&mut text, noted(&notes, answer));
    text
}

/// The notes of an answer, at the front of the places for them.
fn noted(notes: &[Fulfilled; 64], answer: Result<u32, ClockRefusal>) -> &[Fulfilled]
    ensures { result.now ≡ notes_in answer notes.now }
{
    match answer {
        Ok(count) => {
            let end = (count as usize).min(64);
            &notes[..end]
        }
        Err(_) => &[],
    }
}

/// Writes a whole text.
fn write<O: Sink>(out: &mut O, text: &[u8]) -> Result<(), Fault>
    ensures whole { OnOk result (O.told out.new ≡ append_known (O.told out.old) text.now) }
    ensures failed { IfErr result (IsWriteFault (O.faults out.old) (O.faults out.new) (O.told out.old) (O.told out.new) text.now) }
    ensures stays { OnOk result (O.faults out.new ≡ O.faults out.old) }
    ensures keeps_sink { KeepsSink O.Sink out.old out.new }
    ensures writing { WritesOn (O.writing out.old) (O.writing out.new) result }
{
    match write_all(out, text) {
        Ok(()) => Ok(()),
        Err(_) => Err(Fault::WriteFault),
    }
}
