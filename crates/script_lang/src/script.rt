//! A script of a play or a trace is read line by line, up to its end or its first fault.

ghost use Rattle.std.specs.Prelude.{◌≡◌, ◌<◌, ◌∷◌, ◌++◌, [], length, true, false, Ok, Err, OnOk, IfOk, IfErr};
ghost use Rattle.line_text.specs.Lines.{lines_of};
ghost use Rattle.script_lang.specs.Known.{introduced};
ghost use Rattle.script_lang.specs.LineByLine.{ComeTo, GoesOn, IsEnded, ForFault, IsBehind, IsNoBegin, fault_at};
ghost use Rattle.script_lang.specs.Scripts.{TraceComes, IsScript, IsRefused, IsOfCommand, nothing_before, line_with, seen};
ghost use Rattle.script_lang.specs.PlayScripts.{PlayComes, IsPlayScript, IsPlayRefused, IsScriptOf, IsRefusedOf, no_play, play_seen};
ghost use Rattle.script_lang.specs.declared.script.ScriptError.TheVariants as Errors;

use crate::names::Names;
use crate::play_reading::PlayReading;
use crate::play_saying::{Taken, read_play_line};
use crate::saying::{Reading, Said, says, spaced_text};
use crate::{LinkLines, OutOfMemory, PartLines, TraceForm, TraceLine, TraceLines};
use line_text::{is_first_line, next_line};
use omx_types::ScriptWhy;
use std::alloc::{AllocError, Global};
use std::str;

/// The most bytes that a script has.
const MOST_BYTES: usize = 65_536;

/// The units of a script that names none.
const UNITS: u32 = 128;

/// A script, line by line.
#[derive(Drop)]
pub enum Script {
    Play {
        units: u32,
        parts: PartLines,
        links: LinkLines,
    },
    Trace {
        units: u32,
        lines: TraceLines,
    },
}

/// The first fault of a text that is no script.
#[derive(Clone, Copy, Debug, PartialEq, Eq)]
pub struct ScriptFault {
    pub line: u32,
    pub why: ScriptWhy,
}

/// Why a text wasn't read.
#[derive(Clone, Copy, Debug, PartialEq, Eq)]
pub enum ScriptError {
    Fault(ScriptFault),
    OutOfMemory,
}

impl From<AllocError> for ScriptError {
    ghost use Rattle.script_lang.specs.declared.script.ScriptError.TheVariants.{OutOfMemory};

    ghost from_gives = { λ _ c. c ≡ OutOfMemory };

    fn from(_error: AllocError) -> ScriptError {
        ScriptError::OutOfMemory
    }
}

/// The script that a text is. `play` says which command's script is wanted. `script` and `log` are the names that no
/// file of a play may have; a trace doesn't look at them.
pub fn read_script(
    alloc: Global,
    bytes: &[u8],
    play: bool,
    script: &str,
    log: &str,
) -> Result<Script, ScriptError>
    ensures script { IfOk result (IsScriptOf play script.now log.now bytes.now) }
    ensures command { IfOk result (IsOfCommand play) }
    ensures refused { IfErr result (IsRefusedOf play script.now log.now bytes.now) }
{
    if play {
        read_play(alloc, bytes, Taken { script, log })
    } else {
        read_trace(alloc, bytes)
    }
}

fn read_trace(alloc: Global, bytes: &[u8]) -> Result<Script, ScriptError>
    ensures script { IfOk result (IsScript bytes.now) }
    ensures command { IfOk result (IsOfCommand false) }
    ensures refused { IfErr result (IsRefused bytes.now) }
{
    let lines = lines_behind(bytes, b"trace")?;
    let reading = trace_lines(alloc, lines)?;
    Ok(Script::Trace {
        units: reading.units.unwrap_or(UNITS),
        lines: TraceLines::from_vec(reading.lines),
    })
}

fn read_play(alloc: Global, bytes: &[u8], taken: Taken<'_>) -> Result<Script, ScriptError>
    ensures script { IfOk result (IsPlayScript taken.entry.script.now taken.entry.log.now bytes.now) }
    ensures command { IfOk result (IsOfCommand true) }
    ensures refused { IfErr result (IsPlayRefused taken.entry.script.now taken.entry.log.now bytes.now) }
{
    let lines = lines_behind(bytes, b"play")?;
    let reading = play_lines(alloc, taken, lines)?;
    Ok(Script::Play {
        units: reading.units.unwrap_or(UNITS),
        parts: PartLines::from_vec(reading.parts),
        links: LinkLines::from_vec(reading.links),
    })
}

/// The error of a faulty line.
pub fn fault(line: u32, why: ScriptWhy) -> ScriptError
    ensures { result ≡ Errors.Fault (fault_at line why) }
{
    ScriptError::Fault(ScriptFault { line, why })
}

/// The lines behind the first one, where that is the command's.
fn lines_behind<'a>(bytes: &'a [u8], command: &[u8]) -> Result<&'a [u8], ScriptError>
    ensures behind { IfOk result (λ rest. IsBehind command.now bytes.now rest.now) }
    ensures small { IfOk result (λ rest. length rest.now < 65536) }
    ensures refused { IfErr result (λ error. ForFault error (IsNoBegin command.now bytes.now)) }
{
    if bytes.len() > MOST_BYTES {
        return Err(fault(0, ScriptWhy::TooLong));
    }
    let Some((first, rest)) = next_line(bytes) else {
        return Err(fault(1, ScriptWhy::FirstLine));
    };
    if str::from_utf8(first).is_err() {
        return Err(fault(1, ScriptWhy::NotText));
    }
    if !is_first_line(first, command) {
        return Err(fault(1, ScriptWhy::FirstLine));
    }
    Ok(rest)
}

/// What the lines behind the first one of a trace say.
fn trace_lines(alloc: Global, text: &[u8]) -> Result<Reading, ScriptError>
    requires { length text.now < 65536 }
    ensures all { IfOk result (λ reading. ComeTo TraceComes nothing_before 2 (lines_of text.now) (Ok (seen reading))) }
    ensures refused { IfErr result (λ error. ForFault error (λ fault. ComeTo TraceComes nothing_before 2 (lines_of text.now) (Err fault))) }
{
    let mut reading = Reading {
        units: None,
        lines: Vec::new(alloc),
        names: Names::new(alloc),
    };
    let mut rest = text;
    let mut number = 2;
    while let Some((line, behind)) = next_line(rest) {
        read_line(alloc, &mut reading, number, line)?;
        rest = behind;
        number += 1;
    }
    Ok(reading)
}

/// What the lines behind the first one of a play say.
fn play_lines(alloc: Global, taken: Taken<'_>, text: &[u8]) -> Result<PlayReading, ScriptError>
    requires { length text.now < 65536 }
    ensures all { IfOk result (λ reading. ComeTo (PlayComes taken.entry.script.now taken.entry.log.now) no_play 2 (lines_of text.now) (Ok (play_seen reading))) }
    ensures refused { IfErr result (λ error. ForFault error (λ fault. ComeTo (PlayComes taken.entry.script.now taken.entry.log.now) no_play 2 (lines_of text.now) (Err fault))) }
{
    let mut reading = PlayReading {
        units: None,
        parts: Vec::new(alloc),
        links: Vec::new(alloc),
    };
    let mut rest = text;
    let mut number = 2;
    while let Some((line, behind)) = next_line(rest) {
        read_play_line(alloc, taken, &mut reading, number, line)?;
        rest = behind;
        number += 1;
    }
    Ok(reading)
}

/// Takes in what a line says, or answers its fault.
fn read_line(
    alloc: Global,
    reading: &mut Reading,
    number: u32,
    line: &[u8],
) -> Result<(), ScriptError>
    requires { reading.old.names ≡ introduced reading.old.lines.items }
    ensures named { OnOk result (reading.new.names ≡ introduced reading.new.lines.items) }
    ensures more { OnOk result (GoesOn TraceComes (seen reading.old) number line.now (seen reading.new)) }
    ensures ended { IfErr result (IsEnded TraceComes (seen reading.old) number line.now) }
{
    match says(alloc, reading, line)? {
        Said::Nothing => Ok(()),
        Said::Units(units) => {
            reading.units = Some(units);
            Ok(())
        }
        Said::Act(form) => {
            reading.names.add(&form)?;
            keep(alloc, &mut reading.lines, number, line, form)?;
            Ok(())
        }
        Said::Fault(why) => Err(fault(number, why)),
    }
}

/// Keeps a line of that form.
fn keep(
    alloc: Global,
    lines: &mut Vec<TraceLine>,
    number: u32,
    line: &[u8],
    form: TraceForm,
) -> Result<(), OutOfMemory>
    ensures { OnOk result (lines.new.items ≡ lines.old.items ++ (line_with number line.now form ∷ [])) }
{
    let text = spaced_text(alloc, line)?;
    lines.push(TraceLine {
        line: number,
        form,
        text,
    })?;
    Ok(())
}
