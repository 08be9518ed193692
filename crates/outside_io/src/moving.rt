//! Whole pieces are written and read, the rest of a source is moved into a sink, and why these stop early.

ghost use Rattle.std.specs.Prelude.{◌≡◌, ◌≢◌, ◌+◌, ◌<◌, ◌≤◌, max, length, take, drop, IfErr, OnOk, Err};
ghost use Rattle.std.specs.Io.KnownBytes.{append_known};
ghost use Rattle.outside_io.specs.Asking.{AsksWithin};
ghost use Rattle.outside_io.specs.Causes.{HasCause, Rose};
ghost use Rattle.outside_io.specs.Keeping.{KeepsSink, KeepsSource};
ghost use Rattle.outside_io.specs.Moves.{AppendsFront, WhereTold};
ghost use Rattle.outside_io.specs.Stops.{IsShortAt, IsShortOf, IsStopAt, IsStopOf, StopsBefore};
ghost use Rattle.outside_io.specs.Writings.{WritesOn};

use crate::{Failed, Sink, Source};

/// How many bytes a pump reads at once, at most.
const PIECE: usize = 4096;

/// Why a piece was not read whole.
#[derive(Clone, Copy, Debug, PartialEq, Eq)]
pub enum ReadStop {
    Failed,
    /// The source gave nothing at an offset below its size.
    Short { at: u64, size: u64 },
}

/// Why not all bytes were moved.
#[derive(Clone, Copy, Debug, PartialEq, Eq)]
pub enum PumpFault {
    Read,
    Write,
    /// The source gave nothing at an offset below its size.
    Short { at: u64, size: u64 },
}

/// Writes a whole piece. Nothing is tried behind a write that failed.
pub fn write_all<K: Sink>(sink: &mut K, piece: &[u8]) -> Result<(), Failed>
    ensures whole { OnOk result (K.told sink.new ≡ append_known (K.told sink.old) piece.now) }
    ensures front { AppendsFront (K.told sink.old) (K.told sink.new) piece.now }
    ensures keeps_sink { KeepsSink K.Sink sink.old sink.new }
    ensures cause { HasCause (K.faults sink.old) (K.faults sink.new) result }
    ensures writing { WritesOn (K.writing sink.old) (K.writing sink.new) result }
{
    let mut done = 0;
    while done < piece.len() {
        let count = sink.write(&piece[done..])?;
        done += count;
    }
    Ok(())
}

/// Reads the next bytes into the whole of `buf`.
pub fn read_exact<S: Source>(source: &mut S, buf: &mut [u8]) -> Result<(), ReadStop>
    requires { S.offset source.old + length buf.old ≤ S.size source.old }
    ensures bytes { WhereTold (S.told source.old) (λ bytes. OnOk result (
        buf.new ≡ take (length buf.old) (drop (S.offset source.old) bytes))) }
    ensures offset { OnOk result (S.offset source.new ≡ S.offset source.old + length buf.old) }
    ensures keeps_source { KeepsSource S.Source source.old source.new }
    ensures failed { result ≡ Err ReadStop.Failed → Rose (S.faults source.old) (S.faults source.new) }
    ensures stays { result ≢ Err ReadStop.Failed → S.faults source.new ≡ S.faults source.old }
    ensures asks { AsksWithin (S.asked source.old) (S.asked source.new) (S.offset source.old + length buf.old) }
    ensures short { IfErr result (IsStopOf (S.size source.old) (S.ends source.old) (S.offset source.old)) }
    ensures reached { WhereTold (S.ends source.old) (λ end. OnOk result (
        S.offset source.new ≤ max end (S.offset source.old))) }
    ensures unfinished { IfErr result (StopsBefore (S.offset source.old + length buf.old)) }
    ensures stopped_at { IfErr result (IsStopAt (S.offset source.new)) }
{
    let mut done = 0;
    while done < buf.len() {
        match source.read(&mut buf[done..]) {
            Err(_) => return Err(ReadStop::Failed),
            Ok(0) => {
                return Err(ReadStop::Short {
                    at: source.offset(),
                    size: source.size(),
                });
            }
            Ok(count) => {
                done += count;
            }
        }
    }
    Ok(())
}

/// Moves the rest of a source into a sink.
pub fn pump<S: Source, K: Sink>(source: &mut S, sink: &mut K) -> Result<(), PumpFault>
    ensures whole { WhereTold (S.told source.old) (λ bytes. OnOk result (
        K.told sink.new ≡ append_known (K.told sink.old) (drop (S.offset source.old) bytes))) }
    ensures front { WhereTold (S.told source.old) (λ bytes.
        AppendsFront (K.told sink.old) (K.told sink.new) (drop (S.offset source.old) bytes)) }
    ensures end { OnOk result (S.offset source.new ≡ S.size source.old) }
    ensures keeps_source { KeepsSource S.Source source.old source.new }
    ensures keeps_sink { KeepsSink K.Sink sink.old sink.new }
    ensures read { result ≡ Err PumpFault.Read → Rose (S.faults source.old) (S.faults source.new) }
    ensures write { result ≡ Err PumpFault.Write → Rose (K.faults sink.old) (K.faults sink.new) }
    ensures read_stays { result ≢ Err PumpFault.Read → S.faults source.new ≡ S.faults source.old }
    ensures write_stays { result ≢ Err PumpFault.Write → K.faults sink.new ≡ K.faults sink.old }
    ensures short { IfErr result (IsShortOf (S.size source.old) (S.ends source.old) (S.offset source.old)) }
    ensures reached { IfErr result (IsShortAt (S.offset source.new)) }
{
    let mut buf = [0u8; PIECE];
    loop {
        let at = source.offset();
        let size = source.size();
        if at == size {
            return Ok(());
        }
        match source.read(&mut buf) {
            Err(_) => return Err(PumpFault::Read),
            Ok(0) => return Err(PumpFault::Short { at, size }),
            Ok(count) => {
                match write_all(sink, &buf[..count]) {
                    Ok(()) => {}
                    Err(_) => return Err(PumpFault::Write),
                }
            }
        }
    }
}
