//! One line of a trace after the earlier ones: units, a form, nothing, or its fault; and its words as a text.

ghost use Rattle.std.specs.Prelude.{◌≡◌, ◌∷◌, ◌≤◌, [], ℕ, codes, IsFalse, IfOk, IfSome, IfNone};
ghost use Rattle.std.specs.Fmt.{decimal};
ghost use Rattle.line_text.specs.Words.{words_of};
ghost use Rattle.line_text.specs.Lists.{texts, spaced};
ghost use Rattle.script_lang.specs.Known.{introduced};
ghost use Rattle.script_lang.specs.Scripts.{Says, WordsSay, IsUnits, units_of, seen};
ghost use Rattle.line_text.specs.Scripts.{is_skipped};

use crate::known::{is_known, is_new};
use crate::names::Names;
use crate::read_forms::form_in;
use crate::{OutOfMemory, Text, TraceForm, TraceLine};
use line_text::{LineWords, is_skipped, next_word, small_number_in};
use omx_types::ScriptWhy;
use std::alloc::Global;
use std::str;

/// What a line says after the earlier ones.
#[derive(Drop)]
pub enum Said {
    Nothing,
    Units(u32),
    Act(TraceForm),
    Fault(ScriptWhy),
}

/// What the earlier lines said.
#[derive(Drop)]
pub struct Reading {
    pub units: Option<u32>,
    pub lines: Vec<TraceLine>,
    pub names: Names,
}

/// What a line says.
pub fn says(alloc: Global, before: &Reading, line: &[u8]) -> Result<Said, OutOfMemory>
    requires { before.now.names ≡ introduced before.now.lines.items }
    ensures { IfOk result (Says (seen before.now) line.now) }
{
    match str::from_utf8(line) {
        Ok(_) => text_says(alloc, before, line),
        Err(_) => Ok(Said::Fault(ScriptWhy::NotText)),
    }
}

fn text_says(alloc: Global, before: &Reading, line: &[u8]) -> Result<Said, OutOfMemory>
    requires { before.now.names ≡ introduced before.now.lines.items }
    ensures { IfOk result (WordsSay (seen before.now) (words_of line.now)) }
{
    if is_skipped(line) {
        return Ok(Said::Nothing);
    }
    let Some(words) = LineWords::of(line) else {
        return Ok(Said::Fault(ScriptWhy::BadWord));
    };
    words_say(alloc, before, words.as_slice())
}

fn words_say(alloc: Global, before: &Reading, words: &[&[u8]]) -> Result<Said, OutOfMemory>
    requires named { before.now.names ≡ introduced before.now.lines.items }
    requires counts { IsFalse (is_skipped (texts words.now)) }
    ensures { IfOk result (WordsSay (seen before.now) (texts words.now)) }
{
    if let Some(units) = units_at(before, words) {
        return Ok(Said::Units(units));
    }
    let Some(form) = form_in(alloc, words)? else {
        return Ok(Said::Fault(ScriptWhy::BadWord));
    };
    if !is_known(&before.names, &form) {
        return Ok(Said::Fault(ScriptWhy::UnknownName));
    }
    if !is_new(&before.names, &form) {
        return Ok(Said::Fault(ScriptWhy::NameTwice));
    }
    Ok(Said::Act(form))
}

/// The units that words say, where they may stand.
fn units_at(before: &Reading, words: &[&[u8]]) -> Option<u32>
    ensures some { IfSome result (IsUnits (seen before.now) (texts words.now)) }
    ensures none { IfNone result ((n : ℕ) → IsUnits (seen before.now) (texts words.now) n → ⊥) }
{
    if before.units.is_some() {
        return None;
    }
    if !before.lines.is_empty() {
        return None;
    }
    units_in(words)
}

/// The units that words say.
pub fn units_in(words: &[&[u8]]) -> Option<u32>
    ensures spelled { IfSome result (λ n. texts words.now ≡ codes "units" ∷ decimal n ∷ []) }
    ensures few { IfSome result (λ n. n ≤ 1000) }
    ensures is { result ≡ units_of (texts words.now) }
{
    match words {
        [first, number] => units_of(first, number),
        _ => None,
    }
}

fn units_of(first: &[u8], number: &[u8]) -> Option<u32>
    ensures spelled { IfSome result (λ n. first.now ∷ number.now ∷ [] ≡ codes "units" ∷ decimal n ∷ []) }
    ensures few { IfSome result (λ n. n ≤ 1000) }
    ensures is { result ≡ units_of (first.now ∷ number.now ∷ []) }
{
    if first != b"units".as_slice() {
        return None;
    }
    let Some(n) = small_number_in(number) else {
        return None;
    };
    if n <= 1000 { Some(n) } else { None }
}

/// The words of a line, parted by one space.
pub fn spaced_text(alloc: Global, line: &[u8]) -> Result<Text, OutOfMemory>
    ensures { IfOk result (λ text. text ≡ spaced (words_of line.now)) }
{
    let mut bytes = Vec::new(alloc);
    let Ok((start, end)) = next_word(line, 0) else {
        return Ok(Text::from_vec(bytes));
    };
    bytes.extend_from_slice(&line[start..end])?;
    let mut place = end;
    while let Ok((start, end)) = next_word(line, place) {
        bytes.push(b' ')?;
        bytes.extend_from_slice(&line[start..end])?;
        place = end;
    }
    Ok(Text::from_vec(bytes))
}
