//! What a run comes to, once its files are closed.

ghost use Rattle.std.specs.Prelude.{◌≡◌, ◌≤◌, IsTrue, IsFalse, slice_get, ◌<◌};
ghost use Rattle.play_course.specs.Settling.{fault_of_log, fault_of_run, line_in, parts_of, settled};

use crate::player::RunFault;
use crate::summary::Summary;
use omx_types::{Fault, Which};
use outside_io::{Failed, Refused};
use play_log::LogText;
use script_lang::{PartLine, Script};

/// A whole run: its log, and what is told of its sinks.
#[derive(Drop)]
pub struct Ran {
    pub text: LogText,
    pub summary: Summary,
}

/// Whether a count rose, which never falls.
pub(crate) fn has_risen(before: u64, now: u64) -> bool
    requires { before ≤ now }
    ensures risen { IsTrue result → before < now }
    ensures stays { IsFalse result → now ≡ before }
{
    now != before
}

/// The components of a play's script.
pub fn parts_of(script: &Script) -> &[PartLine]
    ensures { result.now ≡ parts_of script.now }
{
    match script {
        Script::Play {
            units: _,
            parts,
            links: _,
        } => parts.as_slice(),
        Script::Trace { units: _, lines: _ } => &[],
    }
}

/// The number of the script line of the component at the place.
fn line_at(parts: &[PartLine], place: u32) -> u32
    ensures { result ≡ line_in (slice_get parts.now place) }
{
    match parts.get(place as usize) {
        Some(part) => part.line,
        None => 0,
    }
}

fn run_fault(parts: &[PartLine], fault: RunFault, unclosed: bool) -> Fault
    ensures { result ≡ fault_of_run parts.now fault unclosed }
{
    match fault {
        RunFault::OutOfMemory => Fault::OutOfMemory,
        RunFault::Read => Fault::ReadFault,
        RunFault::Write => Fault::WriteFault,
        RunFault::Short { place, at, size } => {
            if unclosed {
                Fault::WriteFault
            } else {
                Fault::Short {
                    which: Which::Line(line_at(parts, place)),
                    at,
                    size,
                }
            }
        }
    }
}

/// What a run comes to: a failed read before a failed write or closing, and that before a short source. `reads` and `writes` say which
/// counts rose.
pub(crate) fn settle(
    parts: &[PartLine],
    ran: Result<Ran, RunFault>,
    closed: Result<(), Failed>,
    reads: bool,
    writes: bool,
) -> Result<Ran, Fault>
    ensures { result ≡ settled parts.now ran closed reads writes }
{
    if reads {
        return Err(Fault::ReadFault);
    }
    if writes {
        return Err(Fault::WriteFault);
    }
    match ran {
        Ok(ran) => match closed {
            Ok(()) => Ok(ran),
            Err(_) => Err(Fault::WriteFault),
        },
        Err(fault) => Err(run_fault(parts, fault, closed.is_err())),
    }
}

/// What a log that wasn't written is for the play.
pub fn log_fault(refused: Refused) -> Fault
    ensures { result ≡ fault_of_log refused }
{
    match refused {
        Refused::Absent => Fault::Absent(Which::Log),
        Refused::Failed => Fault::WriteFault,
        Refused::OutOfMemory => Fault::OutOfMemory,
    }
}
