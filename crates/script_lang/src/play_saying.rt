//! One line of a play after the earlier ones: units, a form, nothing, or its fault; and the line is kept.

ghost use Rattle.std.specs.Prelude.{◌≡◌, ◌∷◌, ◌≤◌, [], ℕ, codes, IsFalse, IfOk, IfErr, IfSome, IfNone, OnOk, IsTrue, Ok, Err};
ghost use Rattle.line_text.specs.Words.{words_of};
ghost use Rattle.line_text.specs.Lists.{texts};
ghost use Rattle.line_text.specs.Scripts.{is_skipped};
ghost use Rattle.script_lang.specs.LineByLine.{GoesOn, IsEnded};
ghost use Rattle.script_lang.specs.PlayKnown.{has_place};
ghost use Rattle.script_lang.specs.PlayScripts.{PlaySays, PlayWordsSay, IsPlayUnits, PlayComes, play_seen, with_form};

use crate::play_form::PlayForm;
use crate::play_known::{has_place, is_declared, is_free};
use crate::play_reading::PlayReading;
use crate::read_play_forms::play_form_in;
use crate::saying::units_in;
use crate::script::fault;
use crate::{LinkLine, OutOfMemory, PartLine, ScriptError};
use line_text::{LineWords, is_skipped};
use omx_types::ScriptWhy;
use std::alloc::Global;
use std::str;

/// What a line of a play says after the earlier ones.
#[derive(Drop)]
pub enum PlaySaid {
    Nothing,
    Units(u32),
    Form(PlayForm),
    Fault(ScriptWhy),
}

/// The names that no file of a play may have.
#[derive(Clone, Copy)]
pub struct Taken<'a> {
    pub script: &'a str,
    pub log: &'a str,
}

/// What a line says.
pub fn play_says(
    alloc: Global,
    taken: Taken<'_>,
    before: &PlayReading,
    line: &[u8],
) -> Result<PlaySaid, OutOfMemory>
    ensures { IfOk result (PlaySays taken.entry.script.now taken.entry.log.now (play_seen before.now) line.now) }
{
    match str::from_utf8(line) {
        Ok(_) => text_says(alloc, taken, before, line),
        Err(_) => Ok(PlaySaid::Fault(ScriptWhy::NotText)),
    }
}

fn text_says(
    alloc: Global,
    taken: Taken<'_>,
    before: &PlayReading,
    line: &[u8],
) -> Result<PlaySaid, OutOfMemory>
    ensures { IfOk result (PlayWordsSay taken.entry.script.now taken.entry.log.now (play_seen before.now) (words_of line.now)) }
{
    if is_skipped(line) {
        return Ok(PlaySaid::Nothing);
    }
    let Some(words) = LineWords::of(line) else {
        return Ok(PlaySaid::Fault(ScriptWhy::BadWord));
    };
    words_say(alloc, taken, before, words.as_slice())
}

fn words_say(
    alloc: Global,
    taken: Taken<'_>,
    before: &PlayReading,
    words: &[&[u8]],
) -> Result<PlaySaid, OutOfMemory>
    requires { IsFalse (is_skipped (texts words.now)) }
    ensures { IfOk result (PlayWordsSay taken.entry.script.now taken.entry.log.now (play_seen before.now) (texts words.now)) }
{
    if let Some(units) = units_at(before, words) {
        return Ok(PlaySaid::Units(units));
    }
    let Some(form) = play_form_in(alloc, words)? else {
        return Ok(PlaySaid::Fault(ScriptWhy::BadWord));
    };
    let parts = before.parts.as_slice();
    if !is_declared(parts, &form) {
        return Ok(PlaySaid::Fault(ScriptWhy::UnknownName));
    }
    if !is_free(taken.script, taken.log, parts, &form) {
        return Ok(PlaySaid::Fault(ScriptWhy::NameTwice));
    }
    if !has_place(parts, &form) {
        return Ok(PlaySaid::Fault(ScriptWhy::TooMany));
    }
    Ok(PlaySaid::Form(form))
}

/// The units that words say, where they may stand.
fn units_at(before: &PlayReading, words: &[&[u8]]) -> Option<u32>
    ensures some { IfSome result (IsPlayUnits (play_seen before.now) (texts words.now)) }
    ensures none { IfNone result ((n : ℕ) → IsPlayUnits (play_seen before.now) (texts words.now) n → ⊥) }
{
    if before.units.is_some() {
        return None;
    }
    if !before.parts.is_empty() {
        return None;
    }
    if !before.links.is_empty() {
        return None;
    }
    units_in(words)
}

/// Takes in what a line says, or answers its fault.
pub fn read_play_line(
    alloc: Global,
    taken: Taken<'_>,
    reading: &mut PlayReading,
    number: u32,
    line: &[u8],
) -> Result<(), ScriptError>
    ensures more { OnOk result (GoesOn (PlayComes taken.entry.script.now taken.entry.log.now) (play_seen reading.old) number line.now (play_seen reading.new)) }
    ensures ended { IfErr result (IsEnded (PlayComes taken.entry.script.now taken.entry.log.now) (play_seen reading.old) number line.now) }
{
    match play_says(alloc, taken, reading, line)? {
        PlaySaid::Nothing => Ok(()),
        PlaySaid::Units(units) => {
            reading.units = Some(units);
            Ok(())
        }
        PlaySaid::Form(form) => {
            keep(reading, number, form)?;
            Ok(())
        }
        PlaySaid::Fault(why) => Err(fault(number, why)),
    }
}

/// Keeps a line of that form.
fn keep(reading: &mut PlayReading, number: u32, form: PlayForm) -> Result<(), OutOfMemory>
    requires { IsTrue (has_place reading.old.parts.items form) }
    ensures { OnOk result (play_seen reading.new ≡ with_form (play_seen reading.old) number form) }
{
    match form {
        PlayForm::Part { name, form } => {
            reading.parts.push(PartLine {
                line: number,
                name,
                form,
            })?;
        }
        PlayForm::Link {
            output,
            input,
            count,
            size,
        } => {
            reading.links.push(LinkLine {
                line: number,
                output,
                input,
                count,
                size,
            })?;
        }
    }
    Ok(())
}
