//! The whole course of a play.

ghost use Rattle.std.specs.Prelude.{ℕ, List, IfErr, IfOk, OnOk};
ghost use Rattle.outside_io.specs.Files.{AbsencesStand, CountsStand, GoesOn};
ghost use Rattle.script_lang.specs.PlayScripts.{IsPlayScript};
ghost use Rattle.play_files.specs.Seen.{file_seen, files_seen};
ghost use Rattle.play_course.specs.Courses.{HasClosed, HasEnded, HasRun, TellsNothing};
ghost use Rattle.play_course.specs.Outcomes.{IsDone, IsUndone};
ghost use Rattle.play_course.specs.Players.{CanPlay};
ghost use Rattle.play_course.specs.Settling.{parts_of};

use crate::player::{Player, RunFault};
use crate::settling::{Ran, has_risen, log_fault, parts_of, settle};
use crate::summary::{Summary, summary_of};
use audio_parts::PartFile;
use omx_types::Fault;
use outside_io::{Media, Sink, Source};
use play_files::{Opened, close_files, open_files};
use play_log::write_log;
use script_lang::{PartLine, Script};
use std::alloc::Global;
use stream_plan::Plan;

/// Runs a play whose files are open. What is told of its sinks is known by its plan.
fn run<S: Source, K: Sink, P: Player<S, K>>(
    alloc: Global,
    plan: Plan,
    files: &mut [Option<PartFile<S, K>>],
    player: &mut P,
) -> Result<Ran, RunFault>
    requires ready { CanPlay plan (files_seen (file_seen S.Source K.Sink) files.old) }
    ensures { HasRun 0 TellsNothing plan (files_seen (file_seen S.Source K.Sink) files.old)
        (files_seen (file_seen S.Source K.Sink) files.new) result }
{
    let summary = summary_of(alloc, &plan)?;
    let text = player.run(alloc, plan, files)?;
    Ok(Ran { text, summary })
}

/// Closes the files of a play that was run. What the run comes to is told by how often reads and writes failed since it began, and by how the
/// closings went.
pub fn close_run<M: Media>(
    media: &mut M,
    parts: &[PartLine],
    files: Vec<Option<PartFile<M::Src, M::Snk>>>,
    ran: Result<Ran, RunFault>,
) -> Result<Ran, Fault>
    ensures { HasClosed parts.now (files_seen (file_seen M.Src.Source M.Snk.Sink) files.items) (M.outside media.old) (M.outside media.new) ran result }
{
    let read_before = media.read_faults();
    let write_before = media.write_faults();
    let closed = close_files(media, files);
    let reads = has_risen(read_before, media.read_faults());
    let writes = has_risen(write_before, media.write_faults());
    settle(parts, ran, closed, reads, writes)
}

/// Runs a play, and closes its files.
fn run_and_close<M: Media, P: Player<M::Src, M::Snk>>(
    alloc: Global,
    media: &mut M,
    parts: &[PartLine],
    opened: Opened<M::Src, M::Snk>,
    player: &mut P,
) -> Result<Ran, Fault>
    requires ready { CanPlay opened.plan (files_seen (file_seen M.Src.Source M.Snk.Sink) opened.files.items) }
    ensures { HasEnded 0 TellsNothing opened.plan parts.now (files_seen (file_seen M.Src.Source M.Snk.Sink) opened.files.items) (M.outside media.old) (M.outside media.new) result }
{
    let Opened { plan, mut files } = opened;
    let ran = run(alloc, plan, files.as_mut_slice(), player);
    close_run(media, parts, files, ran)
}

/// Plays a script: opens its files, has them played, closes them, and writes the log. On a fault every file that was opened is closed again,
/// and on one before the log was to be written there is none.
pub fn play_script<M: Media, P: Player<M::Src, M::Snk>>(
    alloc: Global,
    script: &Script,
    media: &mut M,
    log: &str,
    player: &mut P,
) -> Result<Summary, Fault>
    requires script { (name : List ℕ) × (text : List ℕ) × IsPlayScript name log.now text script.now }
    ensures goes_on { GoesOn (M.outside media.old) (M.outside media.new) }
    ensures done { IfOk result (IsDone 0 script.now log.now (M.outside media.old) (M.outside media.new)) }
    ensures stand { OnOk result (CountsStand (M.outside media.old) (M.outside media.new)) }
    ensures absences { OnOk result (AbsencesStand (M.outside media.old) (M.outside media.new)) }
    ensures undone { IfErr result (IsUndone 0 script.now log.now (M.outside media.old) (M.outside media.new)) }
{
    let opened = open_files(alloc, media, script)?;
    let ran = run_and_close(alloc, media, parts_of(script), opened, player)?;
    let Ran { text, summary } = ran;
    match write_log(alloc, media, log, &text) {
        Ok(()) => Ok(summary),
        Err(refused) => Err(log_fault(refused)),
    }
}
