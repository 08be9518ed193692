//! Whole frames are read from a given offset of a source, which seeks there first if it stands elsewhere.

ghost use Rattle.std.specs.Prelude.{◌≡◌, ◌+◌, ◌≤◌, length, take, drop, max, OnOk, IfOk, IfErr};
ghost use Rattle.outside_io.specs.Causes.{HasCause};
ghost use Rattle.outside_io.specs.Keeping.{KeepsSource};
ghost use Rattle.outside_io.specs.Moves.{WhereTold};
ghost use Rattle.audio_parts.specs.Causes.{HasReadCause};

use omx_types::PartFault;
use outside_io::{Failed, ReadStop, Source, read_exact};

/// Lets the source stand at that offset. It stands elsewhere only after a fault.
fn stand_at<S: Source>(source: &mut S, offset: u64) -> Result<(), Failed>
    requires { offset ≤ S.size source.old }
    ensures reached { OnOk result (S.offset source.new ≡ offset) }
    ensures keeps_source { KeepsSource S.Source source.old source.new }
    ensures cause { HasCause (S.faults source.old) (S.faults source.new) result }
{
    if source.offset() == offset {
        return Ok(());
    }
    source.seek_to(offset)
}

/// Reads the bytes of whole frames from that offset on to the front of the buffer, and answers the offset behind them.
pub fn read_frames<S: Source>(
    source: &mut S,
    from: u64,
    buffer: &mut [u8],
    count: usize,
) -> Result<u64, PartFault>
    requires room { count ≤ length buffer.old }
    requires there { from + count ≤ S.size source.old }
    ensures next { IfOk result (λ next. next ≡ from + count) }
    ensures placed { IfOk result (λ next. S.offset source.new ≡ next) }
    ensures bytes { WhereTold (S.told source.old) (λ bytes. OnOk result (
        take count buffer.new ≡ take count (drop from bytes))) }
    ensures stops { WhereTold (S.ends source.old) (λ end. IfOk result (λ next. next ≤ max end from)) }
    ensures keeps_source { KeepsSource S.Source source.old source.new }
    ensures cause { IfErr result (HasReadCause (S.size source.old) (S.ends source.old) from
        (S.faults source.old) (S.faults source.new)) }
{
    match stand_at(source, from) {
        Ok(()) => {}
        Err(_) => return Err(PartFault::Read),
    }
    match read_exact(source, &mut buffer[..count]) {
        Ok(()) => Ok(source.offset()),
        Err(stop) => match stop {
            ReadStop::Failed => Err(PartFault::Read),
            ReadStop::Short { at, size } => Err(PartFault::Short { at, size }),
        },
    }
}
