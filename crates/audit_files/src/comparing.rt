//! The files that a play wrote are opened, in the order of the script, to be compared.

ghost use Rattle.std.specs.Prelude.{◌≡◌, ◌≢◌, ℕ, ◌+◌, length, take, Err, IfErr, IfOk, OnOk};
ghost use Rattle.outside_io.specs.Files.{with_name};
ghost use Rattle.play_files.specs.Asked.{HasAskedFor, written_names};
ghost use Rattle.play_files.specs.Opening.{AreSinksFree, IsStill};
ghost use Rattle.play_files.specs.Seen.{source_seen};
ghost use Rattle.audit_files.specs.Compared.{HaveCompared, IsFileOf};
ghost use Rattle.audit_files.specs.Left.{IsKnownMet, IsKnownRefused};

use audio_parts::PartFile;
use compared_files::Comparing;
use omx_types::Fault;
use outside_io::Media;
use play_files::{put_file, source_fault, written_name};
use script_lang::PartLine;
use std::alloc::Global;

/// Opens the file that is written in that line.
fn open_known<M: Media>(
    alloc: Global,
    media: &mut M,
    name: &str,
    line: u32,
) -> Result<M::Src, Fault>
    ensures still { OnOk result (IsStill (M.outside media.old) (M.outside media.new)) }
    ensures opened { IfOk result (λ src. IsFileOf (M.outside media.old) name.now (source_seen M.Src.Source src)) }
    ensures refused { IfErr result (IsKnownRefused line name.now (M.outside media.old) (M.outside media.new)) }
    ensures asked { result ≢ Err Fault.OutOfMemory → (M.outside media.new).openings ≡ with_name name.now 1 (M.outside media.old).openings }
{
    match media.source(alloc, name) {
        Ok(src) => Ok(src),
        Err(refused) => Err(source_fault(line, refused)),
    }
}

/// Opens the written files of all components, for their planned frames. Where one isn't opened, those before it are.
pub(crate) fn compare_all<M: Media>(
    alloc: Global,
    media: &mut M,
    parts: &[PartLine],
    planned: &[u64],
    files: &mut [Option<PartFile<M::Src, Comparing<M::Src>>>],
) -> Result<(), Fault>
    requires planned { length planned.now ≡ length parts.now }
    requires many { length files.old ≡ length parts.now }
    requires free { AreSinksFree parts.now files.old }
    ensures still { OnOk result (IsStill (M.outside media.old) (M.outside media.new)) }
    ensures opened { OnOk result (HaveCompared M.Src.Source (M.outside media.old) parts.now planned.now (length parts.now) files.old files.new) }
    ensures asked { OnOk result (HasAskedFor (M.outside media.old) (M.outside media.new) (written_names parts.now)) }
    ensures met { IfErr result (λ fault. (place : ℕ) × IsKnownMet (M.outside media.old) (M.outside media.new) parts.now place fault
        × HaveCompared M.Src.Source (M.outside media.old) parts.now planned.now place files.old files.new
        × (fault ≢ Fault.OutOfMemory → HasAskedFor (M.outside media.old) (M.outside media.new) (written_names (take (place + 1) parts.now)))) }
{
    for place in 0..parts.len() {
        let part = &parts[place];
        if let Some(name) = written_name(&part.form) {
            let src = open_known(alloc, media, name, part.line)?;
            put_file(
                files,
                place,
                PartFile::To {
                    snk: Comparing::new(alloc, src),
                    frames: planned[place],
                },
            );
        }
    }
    Ok(())
}
