//! A log is checked against its script and its files.

ghost use Rattle.std.specs.Prelude.{◌≡◌, ◌<◌, ◌≤◌, ℕ, List, length, slice_get, IfErr, IfOk, OnOk, IsFalse, IsTrue};
ghost use Rattle.outside_io.specs.Causes.{Rose};
ghost use Rattle.outside_io.specs.Files.{CountsStand, GoesOn};
ghost use Rattle.outside_io.specs.Moves.{WhereTold};
ghost use Rattle.compared_files.specs.Comparing.{HasMet};
ghost use Rattle.script_lang.specs.PlayScripts.{IsPlayScript};
ghost use Rattle.audit_forms.specs.Audited.{Yes};
ghost use Rattle.play_course.specs.Settling.{line_in};
ghost use Rattle.run_audit.specs.Auditing.{HasMetAt, IsJudged, IsMetBy, IsNoPlayLog, IsNotRun, IsPlayRun, fault_of_met, fault_of_step, fault_of_unread, outcome_of};
ghost use Rattle.run_audit.specs.Faults.{AreGivenToEnd, Asks, TellsOrMemory};

use crate::replaying::{Replayed, replay};
use audio_parts::PartFile;
use audit_files::{close_compared, open_compared};
use audit_laws::{law_of_audits, law_of_verdicts};
use compared_files::{Comparing, Met};
use omx_types::{AuditWhy, Fault, PartFault, Which};
use outside_io::{Media, Source, Unread, read_whole};
use play_course::parts_of;
use play_files::Opened;
use script_lang::{PartLine, Script};
use std::alloc::Global;

/// Why a log has no yes.
#[derive(Clone, Copy, Debug, PartialEq, Eq)]
pub enum AuditFault {
    /// The line of that number isn't that of a run.
    No { line: u64, why: AuditWhy },
    /// The check wasn't done.
    Fault(Fault),
}

impl From<Fault> for AuditFault {
    ghost use Rattle.run_audit.specs.declared.auditing.AuditFault.TheVariants as audits;

    ghost from_gives = { λ fault audited. audited ≡ audits.Fault fault };

    fn from(fault: Fault) -> AuditFault {
        AuditFault::Fault(fault)
    }
}

/// The number of the script line of the component at the place.
fn line_at(parts: &[PartLine], place: usize) -> u32
    ensures { result ≡ line_in (slice_get parts.now place) }
{
    match parts.get(place) {
        Some(part) => part.line,
        None => 0,
    }
}

/// What a log that wasn't read is for the audit. None is too large.
fn log_fault(unread: Unread) -> Fault
    ensures { result ≡ fault_of_unread unread }
{
    match unread {
        Unread::Absent => Fault::Absent(Which::Log),
        Unread::Failed => Fault::ReadFault,
        Unread::TooLong { size: _ } => Fault::OutOfMemory,
        Unread::OutOfMemory => Fault::OutOfMemory,
        Unread::Short { at, size } => Fault::Short {
            which: Which::Log,
            at,
            size,
        },
    }
}

/// Why the comparison of the component in that line took no more.
fn compared_fault<S: Source>(line: u32, snk: &Comparing<S>) -> Fault
    ensures told { result ≡ fault_of_met line snk.now.met }
    ensures met { HasMet (S.faults snk.now.src) (S.size snk.now.src) (S.ends snk.now.src) snk.now.met × WhereTold (S.told snk.now.src) (λ known. S.size snk.now.src ≡ length known) }
{
    match snk.met() {
        Some(Met::Failed) => Fault::ReadFault,
        Some(Met::Short { at, size }) => Fault::Short {
            which: Which::Line(line),
            at,
            size,
        },
        Some(Met::OutOfMemory) => Fault::OutOfMemory,
        None => Fault::OutOfMemory,
    }
}

/// What a step that failed of the component at the place is for the audit.
fn step_fault<S: Source>(
    parts: &[PartLine],
    files: &[Option<PartFile<S, Comparing<S>>>],
    place: usize,
    fault: PartFault,
) -> Fault
    ensures told { result ≡ fault_of_step (slice_get parts.now place) (slice_get files.now place) fault }
    ensures met { fault ≡ PartFault.Write → HasMetAt S.Source (slice_get files.now place) }
{
    let line = line_at(parts, place);
    match fault {
        PartFault::Read => Fault::ReadFault,
        PartFault::Short { at, size } => Fault::Short {
            which: Which::Line(line),
            at,
            size,
        },
        PartFault::Write => match files.get(place) {
            Some(Some(PartFile::To { snk, frames: _ })) => compared_fault(line, snk),
            Some(Some(PartFile::From { .. })) | Some(None) | None => Fault::OutOfMemory,
        },
    }
}

/// What the replay came to is for the audit.
fn outcome<S: Source>(
    parts: &[PartLine],
    files: &[Option<PartFile<S, Comparing<S>>>],
    replayed: Replayed,
) -> Result<u64, AuditFault>
    ensures told { result ≡ outcome_of parts.now files.now replayed }
    ensures met { IsMetBy S.Source files.now replayed }
{
    match replayed {
        Replayed::Yes(acts) => Ok(acts),
        Replayed::No { line, why } => Err(AuditFault::No { line, why }),
        Replayed::Failed { component, fault } => Err(AuditFault::Fault(step_fault(
            parts, files, component, fault,
        ))),
        Replayed::OutOfMemory => Err(AuditFault::Fault(Fault::OutOfMemory)),
    }
}

/// Checks a log against its script and its files: whether its lines are those of a run of the script's play, from an opening to the end of
/// a whole play, and whether the files of the sinks are those that the run writes. Answers how many lines it has before its `end`. Of a step
/// that fails the fault is told, whatever the line says; what is met behind the first line that doesn't pass isn't told.
pub fn audit<M: Media>(
    alloc: Global,
    script: &Script,
    media: &mut M,
    log: &str,
) -> Result<u64, AuditFault>
    requires script { (name : List ℕ) × (text : List ℕ) × IsPlayScript name log.now text script.now }
    ensures goes_on { GoesOn (M.outside media.old) (M.outside media.new) }
    ensures files { (M.outside media.new).file ≡ (M.outside media.old).file }
    ensures writes { (M.outside media.new).write_faults ≡ (M.outside media.old).write_faults }
    ensures yes { IfOk result (λ acts. IsJudged script.now log.now (M.outside media.old) (M.outside media.new) (Yes acts)) }
    ensures stand { OnOk result (CountsStand (M.outside media.old) (M.outside media.new)) }
    ensures other { IfErr result (IsNotRun script.now log.now (M.outside media.old) (M.outside media.new)) }
    ensures asked { (fault : Fault) → IsTrue (M.outside media.old).tells → (Rose (M.outside media.old).read_faults (M.outside media.new).read_faults → ⊥)
        → Asks script.now log.now (M.outside media.old) fault → TellsOrMemory result fault }
    ensures given { IsTrue (M.outside media.old).tells → OnOk result (AreGivenToEnd script.now (M.outside media.old)) }
    ensures played { IfOk result (IsPlayRun script.now log.now (M.outside media.old)) }
    ensures plays { IfErr result (IsNoPlayLog script.now log.now (M.outside media.old)) }
{
    law_of_audits();
    law_of_verdicts();
    let opened = open_compared(alloc, media, script)?;
    let Opened { plan, mut files } = opened;
    let text = match read_whole(alloc, media, log, u64::MAX) {
        Ok(text) => text,
        Err(unread) => {
            close_compared(media, files);
            return Err(AuditFault::Fault(log_fault(unread)));
        }
    };
    let replayed = replay(alloc, plan, text.as_slice(), files.as_mut_slice());
    let answer = outcome(parts_of(script), files.as_slice(), replayed);
    let before = media.read_faults();
    close_compared(media, files);
    if answer.is_ok() && media.read_faults() != before {
        return Err(AuditFault::Fault(Fault::ReadFault));
    }
    answer
}
