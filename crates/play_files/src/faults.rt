//! What the faults of opening are for a play.

ghost use Rattle.std.specs.Prelude.{◌≡◌};
ghost use Rattle.play_files.specs.Faults.{fault_of_head, fault_of_sink, fault_of_source};

use omx_types::{Fault, WavFault, Which};
use outside_io::Refused;

/// Why a file isn't open that is read by the component in that line.
pub fn source_fault(line: u32, refused: Refused) -> Fault
    ensures { result ≡ fault_of_source line refused }
{
    match refused {
        Refused::Absent => Fault::Absent(Which::Line(line)),
        Refused::Failed => Fault::ReadFault,
        Refused::OutOfMemory => Fault::OutOfMemory,
    }
}

pub(crate) fn head_fault(line: u32, fault: WavFault) -> Fault
    ensures { result ≡ fault_of_head line fault }
{
    match fault {
        WavFault::Read => Fault::ReadFault,
        WavFault::Short { at, size } => Fault::Short {
            which: Which::Line(line),
            at,
            size,
        },
        fault => Fault::BadMedia {
            which: Which::Line(line),
            fault,
        },
    }
}

pub(crate) fn sink_fault(line: u32, refused: Refused) -> Fault
    ensures { result ≡ fault_of_sink line refused }
{
    match refused {
        Refused::Absent => Fault::Absent(Which::Line(line)),
        Refused::Failed => Fault::WriteFault,
        Refused::OutOfMemory => Fault::OutOfMemory,
    }
}
