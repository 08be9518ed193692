//! The program's words are parsed, and the command they ask for is run: what is printed, and the status.

ghost use Rattle.std.specs.Prelude.{◌≡◌, ◌≤◌, ℕ, List, map, string_bytes, Result, Ok, Err};
ghost use Rattle.outside_io.specs.Files.{GoesOn};
ghost use Rattle.omx_types.specs.declared.fault.Which.TheVariants.{Line};
ghost use Rattle.omx_types.specs.declared.fault.ScriptWhy.{ScriptWhy};
ghost use Rattle.omx_types.specs.declared.fault.WavFault.{WavFault};
ghost use Rattle.omxrun.specs.declared.done.Done.{Done};
ghost use Rattle.play_forms.specs.declared.plan_fault.PlanFault.{PlanFault};
ghost use Rattle.play_forms.specs.Faults.{fault_of_plan};
ghost use Rattle.audit_forms.specs.Audited.{Verdict, Yes};
ghost use Rattle.audit_forms.specs.Whole.{IsAudited};
ghost use Rattle.omxrun.specs.Asked.{IsUntraced, CanTrace, IsUnread, HasNoPlan, IsMisfitted, IsFaulty, CanPlay, CanMake, IsFaultless, IsOrMemory};
ghost use Rattle.omxrun.specs.AuditFaults.{AsksAudit, HasCutSink, IsShortOrMemory};
ghost use Rattle.omxrun.specs.Audits.{CanAudit, IsAuditOutcome, IsLeftByPlay, IsOfVerdict, status_by};
ghost use Rattle.omxrun.specs.Clocked.{IsClockOutcome, CanClock, IsUnclocked};
ghost use Rattle.omxrun.specs.Commands.{HasRun};
ghost use Rattle.omxrun.specs.Making.{IsMakeOutcome};
ghost use Rattle.rtp_parts.specs.Answers.{StoppedPacking};
ghost use Rattle.omxrun.specs.Packets.{PacksTo, UnpacksTo, StoppedUnpacking};
ghost use Rattle.omxrun.specs.Plays.{IsPlayOutcome, IsPlayReported};
ghost use Rattle.omxrun.specs.Reports.{HasStopped, IsPrinted, IsReported, status_of};
ghost use Rattle.omxrun.specs.Traced.{IsTraceOutcome};
ghost use Rattle.omxrun.specs.Turned.{Written, IsTurnOutcome, CanTurn};
ghost use Rattle.omxrun.specs.Words.{Asked, to_trace, to_play, to_make, to_clock, to_pack, to_unpack, to_audit, AreWordsOf, AreNoForm, IsAllowed, asked_by};

use crate::audit::audit_file;
use crate::clock::clock_file;
use crate::done::Done;
use crate::making::make_files;
use crate::packets::{pack_file, unpack_file};
use crate::play::play_file;
use crate::print::report;
use crate::trace::trace_file;
use crate::words::{Command, command_of};
use audit_laws::law_of_verdicts;
use omx_types::{Fault, Status};
use outside_io::{Media, Sink};
use play_forms::law_of_plans;
use play_worker::NoGate;
use script_lang::{one_outcome, one_play};
use std::alloc::Global;
use std::sync::Wait;
use std::thread::Threads;
use wav_form::one_answer;

/// Does what the words ask for, and prints what it came to: its text, or the line of its fault.
pub fn run_words<R: Threads + Wait + Sync, M: Media, O: Sink>(
    rt: &R,
    alloc: Global,
    words: &[String],
    media: &mut M,
    out: &mut O,
) -> Status
    ensures goes_on { GoesOn (M.outside media.old) (M.outside media.new) }
    ensures later { O.faults out.old ≤ O.faults out.new }
    ensures stopped { HasStopped (O.writing out.old) (O.writing out.new) result }

    // Words of no form.
    ensures usage { AreNoForm (map string_bytes words.now) → (M.outside media.new ≡ M.outside media.old)
        × IsReported (Err Fault.Usage) (O.told out.old) (O.told out.new) (O.faults out.old) (O.faults out.new) result }

    // What is run is what the words ask for.
    ensures run { (asked : Asked) → AreWordsOf (map string_bytes words.now) asked →
        HasRun asked (M.outside media.old) (M.outside media.new) (O.told out.old) (O.told out.new) (O.faults out.old) (O.faults out.new) result }

    // A trace: what it came to and the text that this asks for, and that the text is printed.
    ensures trace { (script : List ℕ) → AreWordsOf (map string_bytes words.now) (to_trace script) → (outcome : Result (Unit {0}) Fault) × (text : List ℕ)
        × IsTraceOutcome script (M.outside media.old) (M.outside media.new) outcome text
        × IsPrinted (status_of outcome) text (O.told out.old) (O.told out.new) (O.faults out.old) (O.faults out.new) result }

    // A play, by whichever number of workers: what it came to, and what is printed of that.
    ensures play { (script : List ℕ) (workers : ℕ) (log : List ℕ) → AreWordsOf (map string_bytes words.now) (to_play script workers log) → (outcome : Result (List ℕ) Fault)
        × IsPlayOutcome workers script log (M.outside media.old) (M.outside media.new) outcome
        × IsPlayReported outcome (O.told out.old) (O.told out.new) (O.faults out.old) (O.faults out.new) result }

    // Files that are made: what it came to, and what is printed of that.
    ensures make { (seed frames : ℕ) (folder : List ℕ) → AreWordsOf (map string_bytes words.now) (to_make seed frames folder) → (outcome : Result Done Fault)
        × IsMakeOutcome seed frames folder (M.outside media.old) (M.outside media.new) outcome
        × IsReported outcome (O.told out.old) (O.told out.new) (O.faults out.old) (O.faults out.new) result }

    // A clock's script: what its run came to and the text that this asks for, and that the text is printed.
    ensures clock { (script : List ℕ) → AreWordsOf (map string_bytes words.now) (to_clock script) → (outcome : Result (Unit {0}) Fault) × (text : List ℕ)
        × IsClockOutcome script (M.outside media.old) (M.outside media.new) outcome text
        × IsPrinted (status_of outcome) text (O.told out.old) (O.told out.new) (O.faults out.old) (O.faults out.new) result }

    // A file that is packed, or unpacked, into another one: what it came to, and what is printed of that.
    ensures pack { (input output : List ℕ) → AreWordsOf (map string_bytes words.now) (to_pack input output) → (outcome : Result Done Fault)
        × IsTurnOutcome PacksTo StoppedPacking input output (M.outside media.old) (M.outside media.new) outcome
        × IsReported outcome (O.told out.old) (O.told out.new) (O.faults out.old) (O.faults out.new) result }
    ensures unpack { (input output : List ℕ) → AreWordsOf (map string_bytes words.now) (to_unpack input output) → (outcome : Result Done Fault)
        × IsTurnOutcome UnpacksTo StoppedUnpacking input output (M.outside media.old) (M.outside media.new) outcome
        × IsReported outcome (O.told out.old) (O.told out.new) (O.faults out.old) (O.faults out.new) result }

    // A log that is checked: what it came to, and what is printed of that.
    ensures audit { (script log : List ℕ) → AreWordsOf (map string_bytes words.now) (to_audit script log) → (outcome : Result Done Fault)
        × IsAuditOutcome script log (M.outside media.old) (M.outside media.new) outcome
        × IsReported outcome (O.told out.old) (O.told out.new) (O.faults out.old) (O.faults out.new) result }

    // Where all is told and no count of faults rises, the status is the one that the files ask for, or memory was wanting.
    ensures untraced { (script : List ℕ) (line : ℕ) (why : ScriptWhy) → AreWordsOf (map string_bytes words.now) (to_trace script) →
        IsFaultless (M.outside media.old) (M.outside media.new) (O.faults out.old) (O.faults out.new) →
        IsUntraced script (M.outside media.old) line why → IsOrMemory result (Status.Fault (Fault.Script line why)) }
    ensures complete_trace { (script : List ℕ) → AreWordsOf (map string_bytes words.now) (to_trace script) →
        IsFaultless (M.outside media.old) (M.outside media.new) (O.faults out.old) (O.faults out.new) →
        CanTrace script (M.outside media.old) → IsOrMemory result Status.Ok }
    ensures unread { (script : List ℕ) (workers : ℕ) (log : List ℕ) (line : ℕ) (why : ScriptWhy) → AreWordsOf (map string_bytes words.now) (to_play script workers log) →
        IsFaultless (M.outside media.old) (M.outside media.new) (O.faults out.old) (O.faults out.new) →
        IsUnread script log (M.outside media.old) line why → IsOrMemory result (Status.Fault (Fault.Script line why)) }
    ensures unplanned { (script : List ℕ) (workers : ℕ) (log : List ℕ) (why : PlanFault) → AreWordsOf (map string_bytes words.now) (to_play script workers log) →
        IsFaultless (M.outside media.old) (M.outside media.new) (O.faults out.old) (O.faults out.new) →
        HasNoPlan script log (M.outside media.old) why → IsOrMemory result (Status.Fault (fault_of_plan why)) }
    ensures faulty { (script : List ℕ) (workers : ℕ) (log : List ℕ) (line : ℕ) (fault : WavFault) → AreWordsOf (map string_bytes words.now) (to_play script workers log) →
        IsFaultless (M.outside media.old) (M.outside media.new) (O.faults out.old) (O.faults out.new) →
        IsFaulty script log (M.outside media.old) line fault → IsOrMemory result (Status.Fault (Fault.BadMedia (Line line) fault)) }
    ensures misfitted { (script : List ℕ) (workers : ℕ) (log : List ℕ) (why : PlanFault) → AreWordsOf (map string_bytes words.now) (to_play script workers log) →
        IsFaultless (M.outside media.old) (M.outside media.new) (O.faults out.old) (O.faults out.new) →
        IsMisfitted script log (M.outside media.old) why → IsOrMemory result (Status.Fault (fault_of_plan why)) }
    ensures complete { (script : List ℕ) (workers : ℕ) (log : List ℕ) → AreWordsOf (map string_bytes words.now) (to_play script workers log) →
        IsFaultless (M.outside media.old) (M.outside media.new) (O.faults out.old) (O.faults out.new) →
        CanPlay script log (M.outside media.old) → IsOrMemory result Status.Ok }
    ensures complete_make { (seed frames : ℕ) (folder : List ℕ) → AreWordsOf (map string_bytes words.now) (to_make seed frames folder) →
        IsFaultless (M.outside media.old) (M.outside media.new) (O.faults out.old) (O.faults out.new) →
        CanMake folder (M.outside media.old) → IsOrMemory result Status.Ok }
    ensures unclocked { (script : List ℕ) (line : ℕ) (why : ScriptWhy) → AreWordsOf (map string_bytes words.now) (to_clock script) →
        IsFaultless (M.outside media.old) (M.outside media.new) (O.faults out.old) (O.faults out.new) →
        IsUnclocked script (M.outside media.old) line why → IsOrMemory result (Status.Fault (Fault.Script line why)) }
    ensures complete_clock { (script : List ℕ) → AreWordsOf (map string_bytes words.now) (to_clock script) →
        IsFaultless (M.outside media.old) (M.outside media.new) (O.faults out.old) (O.faults out.new) →
        CanClock script (M.outside media.old) → IsOrMemory result Status.Ok }
    ensures complete_pack { (input output : List ℕ) (answer : Result Written Fault) → AreWordsOf (map string_bytes words.now) (to_pack input output) →
        IsFaultless (M.outside media.old) (M.outside media.new) (O.faults out.old) (O.faults out.new) →
        CanTurn PacksTo input output (M.outside media.old) answer → IsOrMemory result (status_of answer) }
    ensures complete_unpack { (input output : List ℕ) (answer : Result Written Fault) → AreWordsOf (map string_bytes words.now) (to_unpack input output) →
        IsFaultless (M.outside media.old) (M.outside media.new) (O.faults out.old) (O.faults out.new) →
        CanTurn UnpacksTo input output (M.outside media.old) answer → IsOrMemory result (status_of answer) }

    // The check of a log comes to the one verdict that it has, which is a yes where a play left it that was done whole; or memory was wanting.
    ensures complete_audit { (script log : List ℕ) → AreWordsOf (map string_bytes words.now) (to_audit script log) →
        IsFaultless (M.outside media.old) (M.outside media.new) (O.faults out.old) (O.faults out.new) →
        CanAudit script log (M.outside media.old) → IsOfVerdict script log (M.outside media.old) result }
    ensures decided { (script log : List ℕ) (verdict : Verdict) → AreWordsOf (map string_bytes words.now) (to_audit script log) →
        IsFaultless (M.outside media.old) (M.outside media.new) (O.faults out.old) (O.faults out.new) →
        CanAudit script log (M.outside media.old) → IsAudited script log (M.outside media.old) verdict → IsOrMemory result (status_by verdict) }
    ensures left_by_play { (script log : List ℕ) → AreWordsOf (map string_bytes words.now) (to_audit script log) →
        IsFaultless (M.outside media.old) (M.outside media.new) (O.faults out.old) (O.faults out.new) →
        CanAudit script log (M.outside media.old) → IsLeftByPlay script log (M.outside media.old) → IsOrMemory result Status.Ok }

    // Where the files ask for a fault, the check tells that one; where the log has a yes, but the file of a sink ends early, it tells a
    // file that does; or memory was wanting.
    ensures asked_audit { (script log : List ℕ) (fault : Fault) → AreWordsOf (map string_bytes words.now) (to_audit script log) →
        IsFaultless (M.outside media.old) (M.outside media.new) (O.faults out.old) (O.faults out.new) →
        AsksAudit script log (M.outside media.old) fault → IsOrMemory result (Status.Fault fault) }
    ensures cut_audit { (script log : List ℕ) (acts : ℕ) → AreWordsOf (map string_bytes words.now) (to_audit script log) →
        IsFaultless (M.outside media.old) (M.outside media.new) (O.faults out.old) (O.faults out.new) →
        HasCutSink script log (M.outside media.old) → IsAudited script log (M.outside media.old) (Yes acts) → IsShortOrMemory result }
{
    one_answer();
    one_outcome();
    one_play();
    law_of_plans();
    law_of_verdicts();
    match command_of(words) {
        Some(command) => run_command(rt, alloc, command, media, out),
        None => report(Err(Fault::Usage), out),
    }
}

/// Does what a command asks for, and prints what it came to.
fn run_command<R: Threads + Wait + Sync, M: Media, O: Sink>(
    rt: &R,
    alloc: Global,
    command: Command<'_>,
    media: &mut M,
    out: &mut O,
) -> Status
    requires { IsAllowed (asked_by command) }
    ensures goes_on { GoesOn (M.outside media.old) (M.outside media.new) }
    ensures later { O.faults out.old ≤ O.faults out.new }
    ensures stopped { HasStopped (O.writing out.old) (O.writing out.new) result }
    ensures run { HasRun (asked_by command.entry) (M.outside media.old) (M.outside media.new) (O.told out.old) (O.told out.new) (O.faults out.old) (O.faults out.new) result }
{
    match command {
        Command::Trace { script } => trace_file(alloc, media, script, out),
        Command::Play {
            script,
            workers,
            log,
        } => play_with(rt, alloc, media, script, workers, log, out),
        Command::Make {
            seed,
            frames,
            folder,
        } => {
            let outcome = make_files(alloc, media, seed, frames, folder);
            report(outcome, out)
        }
        Command::Clock { script } => clock_file(alloc, media, script, out),
        Command::Pack { input, output } => report(pack_file(alloc, media, input, output), out),
        Command::Unpack { input, output } => report(unpack_file(alloc, media, input, output), out),
        Command::Audit { script, log } => report(audit_file(alloc, media, script, log), out),
    }
}

/// Plays by so many workers, while the calling thread conducts; without a worker that thread plays.
fn play_with<R: Threads + Wait + Sync, M: Media, O: Sink>(
    rt: &R,
    alloc: Global,
    media: &mut M,
    script: &str,
    workers: u64,
    log: &str,
    out: &mut O,
) -> Status
    requires { workers ≤ 8 }
    ensures goes_on { GoesOn (M.outside media.old) (M.outside media.new) }
    ensures later { O.faults out.old ≤ O.faults out.new }
    ensures stopped { HasStopped (O.writing out.old) (O.writing out.new) result }
    ensures played { (outcome : Result (List ℕ) Fault) × IsPlayOutcome workers script.now log.now (M.outside media.old) (M.outside media.new) outcome
        × IsPlayReported outcome (O.told out.old) (O.told out.new) (O.faults out.old) (O.faults out.new) result }
{
    match vec![in alloc; NoGate; workers as usize] {
        Ok(gates) => play_file(rt, alloc, media, script, log, gates, out),
        Err(_) => report(Err(Fault::OutOfMemory), out),
    }
}
