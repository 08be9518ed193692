//! Sinks are opened, in the order of the script.

ghost use Rattle.std.specs.Prelude.{◌≡◌, ◌≢◌, ℕ, ◌+◌, ◌<◌, ◌≤◌, length, take, slice_get, slice_set, Err, IfErr, IfNone, IfOk, IfSome, OnOk, Some, None};
ghost use Rattle.outside_io.specs.Files.{with_name};
ghost use Rattle.play_result_laws.specs.Files.{written_by};
ghost use Rattle.play_files.specs.Asked.{HasAskedFor, written_names};
ghost use Rattle.play_files.specs.Opening.{AreSinksFree, HaveSinks, IsSinkMet, IsSinkOf, IsSinkRefused, IsStill};
ghost use Rattle.play_files.specs.Seen.{file_seen, sink_seen};

use crate::faults::sink_fault;
use audio_parts::PartFile;
use omx_types::Fault;
use outside_io::Media;
use script_lang::{PartForm, PartLine};
use std::alloc::Global;
use std::mem::replace;

/// The name of the file that the component writes.
pub fn written_name(form: &PartForm) -> Option<&str>
    ensures some { IfSome result (λ name. written_by form.now ≡ Some name.now) }
    ensures none { IfNone result (written_by form.now ≡ None) }
{
    match form {
        PartForm::Sink(file) => Some(file.as_str()),
        _ => None,
    }
}

/// Opens the sink of that line.
fn open_sink<M: Media>(alloc: Global, media: &mut M, name: &str, line: u32) -> Result<M::Snk, Fault>
    ensures still { OnOk result (IsStill (M.outside media.old) (M.outside media.new)) }
    ensures opened { IfOk result (λ snk. IsSinkOf (M.outside media.old) name.now (sink_seen M.Snk.Sink snk)) }
    ensures refused { IfErr result (IsSinkRefused line name.now (M.outside media.old) (M.outside media.new)) }
    ensures asked { result ≢ Err Fault.OutOfMemory → (M.outside media.new).openings ≡ with_name name.now 1 (M.outside media.old).openings }
{
    match media.sink(alloc, name) {
        Ok(snk) => Ok(snk),
        Err(refused) => Err(sink_fault(line, refused)),
    }
}

/// Puts a file at a place that has none.
pub fn put_file<F>(files: &mut [Option<F>], place: usize, file: F)
    requires there { place < length files.old }
    requires free { slice_get files.old place ≡ Some None }
    ensures { files.new ≡ slice_set files.old place (Some file) }
{
    match replace(&mut files[place], Some(file)) {
        None => {}
        Some(_) => unreachable!(),
    }
}

/// Opens the sinks of all components, for their planned frames. Where one isn't opened, those before it are.
pub(crate) fn open_sinks<M: Media>(
    alloc: Global,
    media: &mut M,
    parts: &[PartLine],
    planned: &[u64],
    files: &mut [Option<PartFile<M::Src, M::Snk>>],
) -> Result<(), Fault>
    requires planned { length planned.now ≡ length parts.now }
    requires many { length files.old ≡ length parts.now }
    requires free { AreSinksFree parts.now files.old }
    ensures still { OnOk result (IsStill (M.outside media.old) (M.outside media.new)) }
    ensures opened { OnOk result (HaveSinks (file_seen M.Src.Source M.Snk.Sink) (M.outside media.old) parts.now planned.now (length parts.now) files.old files.new) }
    ensures asked { OnOk result (HasAskedFor (M.outside media.old) (M.outside media.new) (written_names parts.now)) }
    ensures met { IfErr result (λ fault. (place : ℕ) × IsSinkMet (M.outside media.old) (M.outside media.new) parts.now place fault
        × HaveSinks (file_seen M.Src.Source M.Snk.Sink) (M.outside media.old) parts.now planned.now place files.old files.new
        × (fault ≢ Fault.OutOfMemory → HasAskedFor (M.outside media.old) (M.outside media.new) (written_names (take (place + 1) parts.now)))) }
{
    for place in 0..parts.len() {
        let part = &parts[place];
        if let Some(name) = written_name(&part.form) {
            let snk = open_sink(alloc, media, name, part.line)?;
            put_file(
                files,
                place,
                PartFile::To {
                    snk,
                    frames: planned[place],
                },
            );
        }
    }
    Ok(())
}
