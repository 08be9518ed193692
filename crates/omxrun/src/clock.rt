//! The command `clock`: a clock's script is read and run, and its calls or a fault are printed.

ghost use Rattle.std.specs.Prelude.{◌≡◌, ◌≤◌, List, ℕ, Result};
ghost use Rattle.outside_io.specs.Files.{GoesOn};
ghost use Rattle.omxrun.specs.Clocked.{RunsTo, IsClockOutcome};
ghost use Rattle.omxrun.specs.Reports.{HasStopped, IsPrinted, status_of};

use crate::print::report;
use crate::script::SCRIPT_BYTES;
use crate::trace::unread_fault;
use clock_core::run_clock;
use omx_types::{Fault, Status};
use outside_io::{Media, Sink, read_whole};
use std::alloc::Global;

/// Runs the clock's script in the file of that name: prints its calls with their answers and notes, or the line of a fault.
pub fn clock_file<M: Media, O: Sink>(
    alloc: Global,
    media: &mut M,
    name: &str,
    out: &mut O,
) -> Status
    ensures goes_on { GoesOn (M.outside media.old) (M.outside media.new) }
    ensures later { O.faults out.old ≤ O.faults out.new }
    ensures stopped { HasStopped (O.writing out.old) (O.writing out.new) result }
    ensures clocked { (outcome : Result (Unit {0}) Fault) × (text : List ℕ) × IsClockOutcome name.now (M.outside media.old) (M.outside media.new) outcome text
        × IsPrinted (status_of outcome) text (O.told out.old) (O.told out.new) (O.faults out.old) (O.faults out.new) result }
{
    match read_whole(alloc, media, name, SCRIPT_BYTES) {
        Ok(bytes) => clock_script(&bytes, out),
        Err(unread) => report(Err(unread_fault(unread)), out),
    }
}

/// Runs a clock's script. Once a write to `out` has failed, nothing more is written to it.
fn clock_script<O: Sink>(bytes: &[u8], out: &mut O) -> Status
    ensures later { O.faults out.old ≤ O.faults out.new }
    ensures stopped { HasStopped (O.writing out.old) (O.writing out.new) result }
    ensures clocked { (outcome : Result (Unit {0}) Fault) × (text : List ℕ) × RunsTo bytes.now outcome text
        × IsPrinted (status_of outcome) text (O.told out.old) (O.told out.new) (O.faults out.old) (O.faults out.new) result }
{
    let before = out.faults();
    let outcome = run_clock(bytes, out);
    if out.faults() != before {
        return Status::Fault(Fault::WriteFault);
    }
    match outcome {
        Ok(()) => Status::Ok,
        Err(fault) => match fault {
            Fault::WriteFault => Status::Fault(Fault::WriteFault),
            _ => report(Err(fault), out),
        },
    }
}
