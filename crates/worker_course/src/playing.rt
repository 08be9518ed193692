//! A play by workers, from its script to its log.

ghost use Rattle.std.specs.Prelude.{◌≤◌, ℕ, List, All, IfErr, IfOk, IsTrue, OnOk, length};
ghost use Rattle.outside_io.specs.Files.{AbsencesStand, CountsStand, GoesOn};
ghost use Rattle.script_lang.specs.PlayScripts.{IsPlayScript};
ghost use Rattle.play_log.specs.Scenes.{HaveOwnNames};
ghost use Rattle.play_result_laws.specs.Gates.{GatesTellLog};
ghost use Rattle.play_files.specs.Seen.{file_seen, files_seen};
ghost use Rattle.play_course.specs.Courses.{HasEnded, HasRun};
ghost use Rattle.play_course.specs.Outcomes.{HoldsTold, IsDone, IsUndone};
ghost use Rattle.play_course.specs.Players.{CanPlay};
ghost use Rattle.play_course.specs.Settling.{parts_of};
ghost use Rattle.play_worker.specs.Counts.{TellsZeros};

use crate::running::play_plan;
use audio_parts::PartFile;
use omx_types::Fault;
use outside_io::{Media, Sink, Source};
use play_course::{Ran, RunFault, Summary, close_run, log_fault, parts_of, summary_of};
use play_files::{Opened, open_files};
use play_log::write_log;
use play_worker::Gate;
use script_lang::{PartLine, Script};
use std::alloc::Global;
use std::sync::Wait;
use std::thread::Threads;
use stream_plan::Plan;

/// Plays a plan with its files by a worker for each gate. What is told of its sinks is known by the plan. The gates come back where the play
/// was done whole.
fn run<S: Source + Send, K: Sink + Send, G: Gate + Send + Drop, R: Threads + Wait + Sync>(
    rt: &R,
    alloc: Global,
    plan: Plan,
    gates: Vec<G>,
    files: &mut [Option<PartFile<S, K>>],
) -> (Result<Ran, RunFault>, Vec<G>)
    requires ready { CanPlay plan (files_seen (file_seen S.Source K.Sink) files.old) }
    requires gates { (1 ≤ length gates.items) × (length gates.items ≤ 8) × All (λ gate. TellsZeros (G.counts gate)) gates.items }
    ensures { HasRun (length gates.items) (λ parts text. HaveOwnNames parts → GatesTellLog G.counts result.1.items parts text) plan
        (files_seen (file_seen S.Source K.Sink) files.old) (files_seen (file_seen S.Source K.Sink) files.new) result.0 }
{
    let summary = match summary_of(alloc, &plan) {
        Ok(summary) => summary,
        Err(_) => return (Err(RunFault::OutOfMemory), gates),
    };
    match play_plan(rt, alloc, &plan, gates, files) {
        Ok((text, back)) => (Ok(Ran { text, summary }), back),
        Err(fault) => (Err(fault), Vec::new(alloc)),
    }
}

/// Runs a play, and closes its files.
fn run_and_close<M: Media, G: Gate + Send + Drop, R: Threads + Wait + Sync>(
    rt: &R,
    alloc: Global,
    media: &mut M,
    parts: &[PartLine],
    opened: Opened<M::Src, M::Snk>,
    gates: Vec<G>,
) -> (Result<Ran, Fault>, Vec<G>)
    requires ready { CanPlay opened.plan (files_seen (file_seen M.Src.Source M.Snk.Sink) opened.files.items) }
    requires gates { (1 ≤ length gates.items) × (length gates.items ≤ 8) × All (λ gate. TellsZeros (G.counts gate)) gates.items }
    ensures { HasEnded (length gates.items) (λ its text. HaveOwnNames its → GatesTellLog G.counts result.1.items its text) opened.plan parts.now
        (files_seen (file_seen M.Src.Source M.Snk.Sink) opened.files.items) (M.outside media.old) (M.outside media.new) result.0 }
{
    let Opened { plan, mut files } = opened;
    let (ran, back) = run(rt, alloc, plan, gates, files.as_mut_slice());
    (close_run(media, parts, files, ran), back)
}

/// Plays a script with a worker for each gate, one to eight, while the calling thread conducts. The gates come back in their order where the
/// play was done whole; on a fault they are dropped. Of what is left see `play_course::play_script`.
pub fn play_workers<R: Threads + Wait + Sync, M: Media, G: Gate + Send + Drop>(
    rt: &R,
    alloc: Global,
    script: &Script,
    media: &mut M,
    log: &str,
    gates: Vec<G>,
) -> Result<(Summary, Vec<G>), Fault>
    requires script { (name : List ℕ) × (text : List ℕ) × IsPlayScript name log.now text script.now }
    requires few { (1 ≤ length gates.items) × (length gates.items ≤ 8) }
    requires zeros { All (λ gate. TellsZeros (G.counts gate)) gates.items }
    ensures goes_on { GoesOn (M.outside media.old) (M.outside media.new) }
    ensures done { IfOk result (λ done. IsDone (length gates.items) script.now log.now (M.outside media.old) (M.outside media.new) done.0) }
    ensures told { IfOk result (λ done. IsTrue (M.outside media.old).tells
        → HoldsTold (GatesTellLog G.counts done.1.items (parts_of script.now)) log.now (M.outside media.new)) }
    ensures stand { OnOk result (CountsStand (M.outside media.old) (M.outside media.new)) }
    ensures absences { OnOk result (AbsencesStand (M.outside media.old) (M.outside media.new)) }
    ensures undone { IfErr result (IsUndone (length gates.items) script.now log.now (M.outside media.old) (M.outside media.new)) }
{
    let opened = open_files(alloc, media, script)?;
    let (ran, back) = run_and_close(rt, alloc, media, parts_of(script), opened, gates);
    let ran = ran?;
    let Ran { text, summary } = ran;
    match write_log(alloc, media, log, &text) {
        Ok(()) => Ok((summary, back)),
        Err(refused) => Err(log_fault(refused)),
    }
}
