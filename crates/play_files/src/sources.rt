//! Sources are opened, in the order of the script.

ghost use Rattle.std.specs.Prelude.{◌≡◌, ℕ, ◌<◌, ◌≤◌, length, [], ◌∷◌, ◌++◌, ◌+◌, vec_len, vec_capacity, ◌≢◌, Err, IfErr, IfNone, IfOk, IfSome, OnOk, Some, None};
ghost use Rattle.outside_io.specs.Files.{with_name};
ghost use Rattle.play_result_laws.specs.Files.{read_by};
ghost use Rattle.play_files.specs.Asked.{HasAskedFor, read_names};
ghost use Rattle.play_files.specs.Opening.{AreRead, IsSourceMet, IsSourceOf, IsSourceRefused, IsStill};
ghost use Rattle.play_files.specs.Seen.{file_seen, source_seen};

use crate::faults::{head_fault, source_fault};
use audio_parts::PartFile;
use omx_types::Fault;
use outside_io::{Media, Sink};
use script_lang::{PartForm, PartLine};
use std::alloc::Global;
use wav_form::{WavHead, read_head};

/// The name of the file that the component reads.
fn read_name(form: &PartForm) -> Option<&str>
    ensures some { IfSome result (λ name. read_by form.now ≡ Some name.now) }
    ensures none { IfNone result (read_by form.now ≡ None) }
{
    match form {
        PartForm::Source(file) | PartForm::Late(file) => Some(file.as_str()),
        _ => None,
    }
}

/// Opens the source of that line, and reads its head.
fn open_source<M: Media>(
    alloc: Global,
    media: &mut M,
    name: &str,
    line: u32,
) -> Result<(M::Src, WavHead), Fault>
    ensures still { OnOk result (IsStill (M.outside media.old) (M.outside media.new)) }
    ensures opened { IfOk result (λ opened. IsSourceOf (M.outside media.old) name.now opened.1 (source_seen M.Src.Source opened.0)) }
    ensures refused { IfErr result (IsSourceRefused line name.now (M.outside media.old) (M.outside media.new)) }
    ensures asked { result ≢ Err Fault.OutOfMemory → (M.outside media.new).openings ≡ with_name name.now 1 (M.outside media.old).openings }
{
    let mut src = match media.source(alloc, name) {
        Ok(src) => src,
        Err(refused) => return Err(source_fault(line, refused)),
    };
    match read_head(&mut src) {
        Ok(head) => Ok((src, head)),
        Err(fault) => {
            media.close_source(src);
            Err(head_fault(line, fault))
        }
    }
}

/// Puts a value behind the others, where there is room.
fn put_last<T>(values: &mut Vec<T>, value: T)
    requires { vec_len values.old < vec_capacity values.old }
    ensures items { values.new.items ≡ values.old.items ++ value ∷ [] }
    ensures len { vec_len values.new ≡ vec_len values.old + 1 }
    ensures capacity { vec_capacity values.old ≤ vec_capacity values.new }
{
    match values.push(value) {
        Ok(()) => {}
        Err(_) => unreachable!(),
    }
}

/// Opens the sources of all components, whatever takes what the sinks write. Where one isn't opened, those before it are.
pub(crate) fn open_sources<M: Media, K: Sink>(
    alloc: Global,
    media: &mut M,
    parts: &[PartLine],
    heads: &mut Vec<WavHead>,
    files: &mut Vec<Option<PartFile<M::Src, K>>>,
) -> Result<(), Fault>
    requires no_heads { heads.old.items ≡ [] }
    requires no_files { files.old.items ≡ [] }
    requires heads_len { vec_len heads.old ≡ 0 }
    requires files_len { vec_len files.old ≡ 0 }
    requires heads_room { length parts.now ≤ vec_capacity heads.old }
    requires files_room { length parts.now ≤ vec_capacity files.old }
    ensures still { OnOk result (IsStill (M.outside media.old) (M.outside media.new)) }
    ensures read { OnOk result (AreRead (file_seen M.Src.Source K.Sink) (M.outside media.old) parts.now (length parts.now) heads.new.items files.new.items) }
    ensures asked { OnOk result (HasAskedFor (M.outside media.old) (M.outside media.new) (read_names parts.now)) }
    ensures met { IfErr result (λ fault. (place : ℕ) × IsSourceMet (M.outside media.old) (M.outside media.new) parts.now place fault
        × AreRead (file_seen M.Src.Source K.Sink) (M.outside media.old) parts.now place heads.new.items files.new.items) }
{
    for part in parts {
        match read_name(&part.form) {
            None => put_last(files, None),
            Some(name) => {
                let (src, head) = open_source(alloc, media, name, part.line)?;
                let WavHead {
                    format,
                    start: _,
                    frames,
                } = head;
                put_last(
                    files,
                    Some(PartFile::From {
                        src,
                        format,
                        frames,
                    }),
                );
                put_last(heads, head);
            }
        }
    }
    Ok(())
}
