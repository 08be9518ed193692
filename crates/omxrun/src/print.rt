//! Texts and the outcomes of commands are printed, with the status that follows from the outcome and the writes.

ghost use Rattle.std.specs.Prelude.{◌≡◌, ◌≤◌, Result};
ghost use Rattle.omxrun.specs.Reports.{HasStopped, IsPrinted, IsReported, outcome_text, status_of as status_of_outcome};

use crate::done::Done;
use crate::packed_texts::{text_of_packed, text_of_unpacked};
use crate::text::Text;
use crate::texts::{text_of_fault, text_of_make, text_of_yes};
use omx_types::{Fault, Status};
use outside_io::{Sink, write_all};

/// Prints what a command came to. Where a write to `out` is counted as failed, that is what it came to.
pub fn report<O: Sink>(outcome: Result<Done, Fault>, out: &mut O) -> Status
    ensures later { O.faults out.old ≤ O.faults out.new }
    ensures stopped { HasStopped (O.writing out.old) (O.writing out.new) result }
    ensures reported { IsReported outcome (O.told out.old) (O.told out.new) (O.faults out.old) (O.faults out.new) result }
{
    print(&text_of(outcome), status_of(outcome), out)
}

/// Prints a text, which has this status where it is printed whole.
pub fn print<O: Sink>(text: &Text, wanted: Status, out: &mut O) -> Status
    ensures later { O.faults out.old ≤ O.faults out.new }
    ensures stopped { HasStopped (O.writing out.old) (O.writing out.new) result }
    ensures printed { IsPrinted wanted text.now (O.told out.old) (O.told out.new) (O.faults out.old) (O.faults out.new) result }
{
    let before = out.faults();
    let written = write_all(out, text.as_slice());
    let now = out.faults();
    match written {
        Ok(()) => {
            if now == before {
                wanted
            } else {
                Status::Fault(Fault::WriteFault)
            }
        }
        Err(_) => Status::Fault(Fault::WriteFault),
    }
}

fn text_of(outcome: Result<Done, Fault>) -> Text
    ensures { result ≡ outcome_text outcome }
{
    match outcome {
        Ok(Done::Made { frames }) => text_of_make(frames),
        Ok(Done::Packed(counts)) => text_of_packed(counts),
        Ok(Done::Unpacked(counts)) => text_of_unpacked(counts),
        Ok(Done::Audited { acts }) => text_of_yes(acts),
        Err(fault) => text_of_fault(fault),
    }
}

fn status_of(outcome: Result<Done, Fault>) -> Status
    ensures { result ≡ status_of_outcome outcome }
{
    match outcome {
        Ok(_) => Status::Ok,
        Err(fault) => Status::Fault(fault),
    }
}
