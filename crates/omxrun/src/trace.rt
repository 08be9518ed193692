//! The command `trace`: a script is read and traced; and the faults of scripts that can't be read or parsed.

ghost use Rattle.std.specs.Prelude.{◌≡◌, ◌≤◌, List, ℕ, Result, false, IfOk, IfErr, OnOk};
ghost use Rattle.outside_io.specs.Files.{CountsStand, GoesOn};
ghost use Rattle.script_lang.specs.Scripts.{IsOfCommand};
ghost use Rattle.omxrun.specs.Absences.{AreAbsencesTold};
ghost use Rattle.omxrun.specs.Faults.{fault_of_script, fault_of_reading};
ghost use Rattle.omxrun.specs.Reports.{HasStopped, IsPrinted, status_of};
ghost use Rattle.trace_run.specs.OneTrace.{HasOneText};
ghost use Rattle.omxrun.specs.Traced.{IsScriptIn, HasScriptReason, TracesTo, IsTraceOutcome};

use crate::print::report;
use crate::script::SCRIPT_BYTES;
use omx_types::{Fault, ScriptWhy, Status, Which};
use outside_io::{Media, Sink, Unread, read_whole};
use script_lang::{Script, ScriptError, read_script};
use std::alloc::Global;
use trace_run::trace;

/// Traces the script in the file of that name: prints its lines with their answers, and the line of a fault behind them.
pub fn trace_file<M: Media, O: Sink>(
    alloc: Global,
    media: &mut M,
    name: &str,
    out: &mut O,
) -> Status
    ensures goes_on { GoesOn (M.outside media.old) (M.outside media.new) }
    ensures later { O.faults out.old ≤ O.faults out.new }
    ensures stopped { HasStopped (O.writing out.old) (O.writing out.new) result }
    ensures traced { (outcome : Result (Unit {0}) Fault) × (text : List ℕ) × IsTraceOutcome name.now (M.outside media.old) (M.outside media.new) outcome text
        × IsPrinted (status_of outcome) text (O.told out.old) (O.told out.new) (O.faults out.old) (O.faults out.new) result }
{
    match script_in(alloc, media, name) {
        Ok(script) => trace_script(alloc, &script, out),
        Err(fault) => report(Err(fault), out),
    }
}

fn script_in<M: Media>(alloc: Global, media: &mut M, name: &str) -> Result<Script, Fault>
    ensures goes_on { GoesOn (M.outside media.old) (M.outside media.new) }
    ensures kept { (M.outside media.new).file ≡ (M.outside media.old).file }
    ensures script { IfOk result (IsScriptIn name.now (M.outside media.old)) }
    ensures command { IfOk result (IsOfCommand false) }
    ensures stand { OnOk result (CountsStand (M.outside media.old) (M.outside media.new)) }
    ensures unabsent { AreAbsencesTold (M.outside media.old) (M.outside media.new) result }
    ensures reason { IfErr result (HasScriptReason name.now (M.outside media.old) (M.outside media.new)) }
{
    let text = match read_whole(alloc, media, name, SCRIPT_BYTES) {
        Ok(text) => text,
        Err(unread) => return Err(unread_fault(unread)),
    };
    match read_script(alloc, &text, false, name, "") {
        Ok(script) => Ok(script),
        Err(error) => Err(refused_fault(error)),
    }
}

/// What a script that wasn't read is for a command that reads one.
pub fn unread_fault(unread: Unread) -> Fault
    ensures { result ≡ fault_of_script unread }
{
    match unread {
        Unread::Absent => Fault::Absent(Which::Script),
        Unread::Failed => Fault::ReadFault,
        Unread::TooLong { size: _ } => Fault::Script {
            line: 0,
            why: ScriptWhy::TooLong,
        },
        Unread::Short { at, size } => Fault::Short {
            which: Which::Script,
            at,
            size,
        },
        Unread::OutOfMemory => Fault::OutOfMemory,
    }
}

/// What bytes that are no script are for a command that reads one.
pub fn refused_fault(error: ScriptError) -> Fault
    ensures { result ≡ fault_of_reading error }
{
    match error {
        ScriptError::Fault(fault) => Fault::Script {
            line: fault.line,
            why: fault.why,
        },
        ScriptError::OutOfMemory => Fault::OutOfMemory,
    }
}

/// Traces a script. Once a write to `out` has failed, nothing more is written to it.
fn trace_script<O: Sink>(alloc: Global, script: &Script, out: &mut O) -> Status
    requires { IsOfCommand false script.now }
    ensures later { O.faults out.old ≤ O.faults out.new }
    ensures stopped { HasStopped (O.writing out.old) (O.writing out.new) result }
    ensures traced { (outcome : Result (Unit {0}) Fault) × (text : List ℕ) × TracesTo script.now outcome text
        × IsPrinted (status_of outcome) text (O.told out.old) (O.told out.new) (O.faults out.old) (O.faults out.new) result }
    ensures one { HasOneText script.now }
{
    let before = out.faults();
    let outcome = trace(alloc, script, out);
    if out.faults() != before {
        return Status::Fault(Fault::WriteFault);
    }
    match outcome {
        Ok(()) => Status::Ok,
        Err(fault) => match fault {
            Fault::OutOfMemory => report(Err(Fault::OutOfMemory), out),
            _ => Status::Fault(Fault::WriteFault),
        },
    }
}
