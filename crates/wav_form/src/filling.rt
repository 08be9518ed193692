//! Bytes of a source are read from an offset on, with a seek only where it is needed.

ghost use Rattle.std.specs.Prelude.{◌≡◌, ◌≢◌, ◌+◌, ◌<◌, ◌≤◌, length, take, drop, IfErr, OnOk, OnErr, Err};
ghost use Rattle.outside_io.specs.Asking.{AsksWithin};
ghost use Rattle.outside_io.specs.Causes.{Rose};
ghost use Rattle.outside_io.specs.Keeping.{KeepsSource};
ghost use Rattle.outside_io.specs.Moves.{WhereTold};
ghost use Rattle.wav_form.specs.Stops.{IsReadStop};

use omx_types::WavFault;
use outside_io::{ReadStop, Source, read_exact};

/// Reads the bytes from `offset` on into the whole of `buf`.
pub(crate) fn fill_from<S: Source>(src: &mut S, offset: u64, buf: &mut [u8]) -> Result<(), WavFault>
    requires { offset + length buf.old ≤ S.size src.old }
    ensures bytes { WhereTold (S.told src.old) (λ bytes. OnOk result (
        buf.new ≡ take (length buf.old) (drop offset bytes))) }
    ensures reached { WhereTold (S.ends src.old) (λ end. OnOk result (0 < length buf.old → offset + length buf.old ≤ end)) }
    ensures offset { OnOk result (S.offset src.new ≡ offset + length buf.old) }
    ensures keeps_source { KeepsSource S.Source src.old src.new }
    ensures read { result ≡ Err WavFault.Read → Rose (S.faults src.old) (S.faults src.new) }
    ensures stays { result ≢ Err WavFault.Read → S.faults src.new ≡ S.faults src.old }
    ensures asks { AsksWithin (S.asked src.old) (S.asked src.new) (offset + length buf.old) }
    ensures stop { IfErr result (IsReadStop (S.size src.old) (S.ends src.old) offset (offset + length buf.old)) }
{
    go_to(src, offset)?;
    match read_exact(src, buf) {
        Ok(()) => Ok(()),
        Err(ReadStop::Failed) => Err(WavFault::Read),
        Err(ReadStop::Short { at, size }) => Err(WavFault::Short { at, size }),
    }
}

/// Goes to an offset, by a seek only where the source doesn't stand there.
fn go_to<S: Source>(src: &mut S, offset: u64) -> Result<(), WavFault>
    requires { offset ≤ S.size src.old }
    ensures reached { OnOk result (S.offset src.new ≡ offset) }
    ensures keeps_source { KeepsSource S.Source src.old src.new }
    ensures read { OnErr result (Rose (S.faults src.old) (S.faults src.new)) }
    ensures stays { OnOk result (S.faults src.new ≡ S.faults src.old) }
    ensures asked { S.asked src.new ≡ S.asked src.old }
    ensures only { IfErr result (λ fault. fault ≡ WavFault.Read) }
{
    if src.offset() == offset {
        return Ok(());
    }
    match src.seek_to(offset) {
        Ok(()) => Ok(()),
        Err(_) => Err(WavFault::Read),
    }
}
