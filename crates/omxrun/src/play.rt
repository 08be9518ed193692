//! The command `play`: a script is read and played, by workers or without, and the summary of its sinks or a fault is printed.

ghost use Rattle.std.specs.Prelude.{◌≡◌, ◌≤◌, ℕ, List, Result, IfOk, IfErr, OnOk, length};
ghost use Rattle.outside_io.specs.Files.{AbsencesStand, CountsStand, GoesOn};
ghost use Rattle.script_lang.specs.PlayScripts.{IsPlayScript};
ghost use Rattle.play_course.specs.Outcomes.{IsDone, IsUndone};
ghost use Rattle.omxrun.specs.Absences.{AreAbsencesTold};
ghost use Rattle.omxrun.specs.Plays.{HasPlayReason, IsPlayCourse, IsPlayOutcome, IsPlayReported, WasRead};
ghost use Rattle.omxrun.specs.Reports.{HasStopped};

use crate::print::{print, report};
use crate::script::SCRIPT_BYTES;
use crate::summary::text_of_play;
use crate::trace::{refused_fault, unread_fault};
use omx_types::{Fault, Status};
use outside_io::{Media, Sink, read_whole};
use play_course::{Summary, parts_of, play_script};
use play_files::law_of_names;
use play_run::OneThread;
use play_worker::NoGate;
use script_lang::{Script, read_script};
use std::alloc::Global;
use std::sync::Wait;
use std::thread::Threads;
use worker_course::play_workers;

/// Plays the script in the file of that name with a worker for each gate, and prints what is told of its sinks, or the line of a fault.
pub fn play_file<R: Threads + Wait + Sync, M: Media, O: Sink>(
    rt: &R,
    alloc: Global,
    media: &mut M,
    name: &str,
    log: &str,
    gates: Vec<NoGate>,
    out: &mut O,
) -> Status
    requires few { length gates.items ≤ 8 }
    ensures goes_on { GoesOn (M.outside media.old) (M.outside media.new) }
    ensures later { O.faults out.old ≤ O.faults out.new }
    ensures stopped { HasStopped (O.writing out.old) (O.writing out.new) result }
    ensures played { (outcome : Result (List ℕ) Fault) × IsPlayOutcome (length gates.items) name.now log.now (M.outside media.old) (M.outside media.new) outcome
        × IsPlayReported outcome (O.told out.old) (O.told out.new) (O.faults out.old) (O.faults out.new) result }
{
    law_of_names();
    match script_of(alloc, media, name, log) {
        Ok(script) => play_read(rt, alloc, media, &script, log, gates, out),
        Err(fault) => report(Err(fault), out),
    }
}

/// The script of a play in the file of that name.
pub fn script_of<M: Media>(
    alloc: Global,
    media: &mut M,
    name: &str,
    log: &str,
) -> Result<Script, Fault>
    ensures goes_on { GoesOn (M.outside media.old) (M.outside media.new) }
    ensures kept { (M.outside media.new).file ≡ (M.outside media.old).file }
    ensures unwritten { (M.outside media.new).write_faults ≡ (M.outside media.old).write_faults }
    ensures read { IfOk result (WasRead name.now log.now (M.outside media.old) (M.outside media.new)) }
    ensures reason { IfErr result (HasPlayReason name.now log.now (M.outside media.old) (M.outside media.new)) }
    ensures unabsent { AreAbsencesTold (M.outside media.old) (M.outside media.new) result }
{
    let text = match read_whole(alloc, media, name, SCRIPT_BYTES) {
        Ok(text) => text,
        Err(unread) => return Err(unread_fault(unread)),
    };
    match read_script(alloc, &text, true, name, log) {
        Ok(script) => Ok(script),
        Err(error) => Err(refused_fault(error)),
    }
}

/// Plays a script, and prints what is told of its sinks, or the line of a fault.
fn play_read<R: Threads + Wait + Sync, M: Media, O: Sink>(
    rt: &R,
    alloc: Global,
    media: &mut M,
    script: &Script,
    log: &str,
    gates: Vec<NoGate>,
    out: &mut O,
) -> Status
    requires few { length gates.items ≤ 8 }
    requires script { (name : List ℕ) × (text : List ℕ) × IsPlayScript name log.now text script.now }
    ensures goes_on { GoesOn (M.outside media.old) (M.outside media.new) }
    ensures later { O.faults out.old ≤ O.faults out.new }
    ensures stopped { HasStopped (O.writing out.old) (O.writing out.new) result }
    ensures played { (outcome : Result (List ℕ) Fault) × IsPlayCourse (length gates.items) script.now log.now (M.outside media.old) (M.outside media.new) outcome
        × IsPlayReported outcome (O.told out.old) (O.told out.new) (O.faults out.old) (O.faults out.new) result }
{
    match play_by(rt, alloc, media, script, log, gates) {
        Ok(summary) => {
            let text = text_of_play(parts_of(script), summary.sinks());
            print(&text, Status::Ok, out)
        }
        Err(undone) => report(Err(undone), out),
    }
}

/// Plays a script with a worker for each gate, while the calling thread conducts; without a gate that thread plays, by calls that return.
fn play_by<R: Threads + Wait + Sync, M: Media>(
    rt: &R,
    alloc: Global,
    media: &mut M,
    script: &Script,
    log: &str,
    gates: Vec<NoGate>,
) -> Result<Summary, Fault>
    requires few { length gates.items ≤ 8 }
    requires script { (name : List ℕ) × (text : List ℕ) × IsPlayScript name log.now text script.now }
    ensures goes_on { GoesOn (M.outside media.old) (M.outside media.new) }
    ensures done { IfOk result (IsDone (length gates.items) script.now log.now (M.outside media.old) (M.outside media.new)) }
    ensures stand { OnOk result (CountsStand (M.outside media.old) (M.outside media.new)) }
    ensures absences { OnOk result (AbsencesStand (M.outside media.old) (M.outside media.new)) }
    ensures undone { IfErr result (IsUndone (length gates.items) script.now log.now (M.outside media.old) (M.outside media.new)) }
{
    if gates.is_empty() {
        return play_script(alloc, script, media, log, &mut OneThread);
    }
    let (summary, _gates) = play_workers(rt, alloc, script, media, log, gates)?;
    Ok(summary)
}
