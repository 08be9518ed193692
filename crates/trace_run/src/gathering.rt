//! Lines that wait, so that many are written at once.

ghost use Rattle.std.specs.Prelude.{◌≡◌, ◌++◌, if◌then◌else◌, OnOk, OnErr, IfErr};
ghost use Rattle.std.specs.Io.KnownBytes.{append_known};
ghost use Rattle.omx_types.specs.declared.fault.Fault.TheVariants.{WriteFault};
ghost use Rattle.outside_io.specs.Causes.{Rose};
ghost use Rattle.outside_io.specs.Keeping.{KeepsSink};
ghost use Rattle.outside_io.specs.Moves.{AppendsFront};
ghost use Rattle.outside_io.specs.Writings.{WritesOn};
ghost use Rattle.trace_run.specs.Writing.{PassesOn};

use omx_types::Fault;
use outside_io::{Sink, write_all};

/// How many bytes wait at most.
pub const GATHERED_BYTES: usize = 65_536;

/// Puts a line behind the bytes that wait. Where it finds no room there, they are written, and then the line.
pub fn gather<O: Sink>(line: &[u8], waiting: &mut Vec<u8>, out: &mut O) -> Result<(), Fault>
    ensures passed { OnOk result (PassesOn (O.told out.old) (O.told out.new) waiting.old.items line.now waiting.new.items) }
    ensures front { OnErr result (AppendsFront (O.told out.old) (O.told out.new) (waiting.old.items ++ line.now)) }
    ensures fault { IfErr result (λ fault. (fault ≡ WriteFault) × Rose (O.faults out.old) (O.faults out.new)) }
    ensures stays { OnOk result (O.faults out.new ≡ O.faults out.old) }
    ensures keeps_sink { KeepsSink O.Sink out.old out.new }
    ensures writing { WritesOn (O.writing out.old) (O.writing out.new) result }
{
    if join(line, waiting) {
        return Ok(());
    }
    write(out, waiting.as_slice())?;
    waiting.clear();
    write(out, line)
}

/// Puts a line behind the bytes that wait, where it finds room.
fn join(line: &[u8], waiting: &mut Vec<u8>) -> bool
    ensures { waiting.new.items ≡ (if result then waiting.old.items ++ line.now else waiting.old.items) }
{
    waiting.len() + line.len() <= GATHERED_BYTES && waiting.extend_from_slice(line).is_ok()
}

/// Writes a whole text.
pub fn write<O: Sink>(out: &mut O, text: &[u8]) -> Result<(), Fault>
    ensures whole { OnOk result (O.told out.new ≡ append_known (O.told out.old) text.now) }
    ensures front { AppendsFront (O.told out.old) (O.told out.new) text.now }
    ensures fault { IfErr result (λ fault. (fault ≡ WriteFault) × Rose (O.faults out.old) (O.faults out.new)) }
    ensures stays { OnOk result (O.faults out.new ≡ O.faults out.old) }
    ensures keeps_sink { KeepsSink O.Sink out.old out.new }
    ensures writing { WritesOn (O.writing out.old) (O.writing out.new) result }
{
    match write_all(out, text) {
        Ok(()) => Ok(()),
        Err(_) => Err(Fault::WriteFault),
    }
}
