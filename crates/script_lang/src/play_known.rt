//! What a play's earlier lines allow: links of declared names, free names and files, and 32 components.

ghost use Rattle.std.specs.Prelude.{◌≡◌, ◌||◌};
ghost use Rattle.std.specs.List.{list_any};
ghost use Rattle.script_lang.specs.PlayKnown.{has_part, is_declared, reads_file, writes_file, is_taken, file_clashes, is_free, has_place};

use crate::play_form::PlayForm;
use crate::{FileName, PartForm, PartLine};
use act_text::Name;

/// The most components of a play.
const MOST_PARTS: usize = 32;

fn has_part(parts: &[PartLine], name: &Name) -> bool
    ensures { result ≡ has_part parts.now name.now }
{
    parts
        .iter()
        .any(|part| part.name.as_bytes() == name.as_bytes())
}

/// Whether the names that a link names are declared by earlier lines.
pub fn is_declared(parts: &[PartLine], form: &PlayForm) -> bool
    ensures { result ≡ is_declared parts.now form.now }
{
    match form {
        PlayForm::Part { name: _, form: _ } => true,
        PlayForm::Link {
            output,
            input,
            count: _,
            size: _,
        } => has_part(parts, &output.component) && has_part(parts, &input.component),
    }
}

fn reads_file(file: &FileName, form: &PartForm) -> bool
    ensures { result ≡ reads_file file.now form.now }
{
    match form {
        PartForm::Source(name) | PartForm::Late(name) => name.as_bytes() == file.as_bytes(),
        _ => false,
    }
}

fn writes_file(file: &FileName, form: &PartForm) -> bool
    ensures { result ≡ writes_file file.now form.now }
{
    match form {
        PartForm::Sink(name) => name.as_bytes() == file.as_bytes(),
        _ => false,
    }
}

/// Whether the script or the log has this name.
fn is_taken(script: &str, log: &str, file: &FileName) -> bool
    ensures { result ≡ is_taken script.now log.now file.now }
{
    file.as_bytes() == script.as_bytes() || file.as_bytes() == log.as_bytes()
}

fn is_written(parts: &[PartLine], file: &FileName) -> bool
    ensures { result ≡ list_any (λ part. writes_file file.now part.form) parts.now }
{
    parts.iter().any(|part| writes_file(file, &part.form))
}

fn is_named(parts: &[PartLine], file: &FileName) -> bool
    ensures { result ≡ list_any (λ part. writes_file file.now part.form || reads_file file.now part.form) parts.now }
{
    parts.iter().any(|part| writes_file(file, &part.form) || reads_file(file, &part.form))
}

/// Whether the file of a line is the script's or the log's, or one that an earlier line keeps it from.
fn file_clashes(script: &str, log: &str, parts: &[PartLine], form: &PartForm) -> bool
    ensures { result ≡ file_clashes script.now log.now parts.now form.now }
{
    match form {
        PartForm::Source(file) | PartForm::Late(file) => {
            is_taken(script, log, file) || is_written(parts, file)
        }
        PartForm::Sink(file) => is_taken(script, log, file) || is_named(parts, file),
        _ => false,
    }
}

/// Whether neither the name that a line introduces nor its file clashes with an earlier line's.
pub fn is_free(script: &str, log: &str, parts: &[PartLine], form: &PlayForm) -> bool
    ensures { result ≡ is_free script.now log.now parts.now form.now }
{
    match form {
        PlayForm::Part { name, form } => {
            !has_part(parts, name) && !file_clashes(script, log, parts, form)
        }
        PlayForm::Link {
            output: _,
            input: _,
            count: _,
            size: _,
        } => true,
    }
}

/// Whether the play has a place for the component of a line.
pub fn has_place(parts: &[PartLine], form: &PlayForm) -> bool
    ensures { result ≡ has_place parts.now form.now }
{
    match form {
        PlayForm::Part { name: _, form: _ } => parts.len() < MOST_PARTS,
        PlayForm::Link {
            output: _,
            input: _,
            count: _,
            size: _,
        } => true,
    }
}
