//! Writing a piece of the unpacked frames: codes of silence, and then the payload of a packet.

ghost use Rattle.std.specs.Prelude.{◌≡◌, ◌≤◌, ◌++◌, length, replicate, OnOk};
ghost use Rattle.std.specs.Io.KnownBytes.{append_known};
ghost use Rattle.outside_io.specs.Causes.{HasCause};
ghost use Rattle.outside_io.specs.Keeping.{KeepsSink};
ghost use Rattle.outside_io.specs.Moves.{AppendsFront};
ghost use Rattle.rtp_parts.specs.Packets.{silence_of};

use crate::companding::silence_of;
use crate::unpacker::Piece;
use g711_law::Companding;
use outside_io::{Failed, Sink, write_all};

/// The codes of silence that are written at once, at most.
const CODES: usize = 4096;

/// Writes the frames of a piece.
pub(crate) fn write_piece<K: Sink>(
    snk: &mut K,
    companding: Companding,
    piece: &Piece,
) -> Result<(), Failed>
    requires { piece.now.silence ≤ 80000 }
    ensures whole { OnOk result (K.told snk.new ≡ append_known (K.told snk.old) (replicate piece.now.silence (silence_of companding) ++ piece.now.payload.items)) }
    ensures front { AppendsFront (K.told snk.old) (K.told snk.new) (replicate piece.now.silence (silence_of companding) ++ piece.now.payload.items) }
    ensures keeps_sink { KeepsSink K.Sink snk.old snk.new }
    ensures cause { HasCause (K.faults snk.old) (K.faults snk.new) result }
{
    if piece.silence > 0 {
        write_silence(snk, companding, piece.silence as usize)?;
    }
    write_all(snk, &piece.payload)
}

/// Writes so many codes of silence.
fn write_silence<K: Sink>(snk: &mut K, companding: Companding, count: usize) -> Result<(), Failed>
    requires { count ≤ 80000 }
    ensures whole { OnOk result (K.told snk.new ≡ append_known (K.told snk.old) (replicate count (silence_of companding))) }
    ensures front { AppendsFront (K.told snk.old) (K.told snk.new) (replicate count (silence_of companding)) }
    ensures keeps_sink { KeepsSink K.Sink snk.old snk.new }
    ensures cause { HasCause (K.faults snk.old) (K.faults snk.new) result }
{
    let code = silence_of(companding);
    let codes = [code; CODES];
    write_repeated(snk, code, &codes, count)
}

/// Writes so many of a code, by way of a list of it.
fn write_repeated<K: Sink>(snk: &mut K, code: u8, codes: &[u8], count: usize) -> Result<(), Failed>
    requires codes { codes.now ≡ replicate 4096 code }
    requires some { length codes.now ≡ 4096 }
    requires few { count ≤ 80000 }
    ensures whole { OnOk result (K.told snk.new ≡ append_known (K.told snk.old) (replicate count code)) }
    ensures front { AppendsFront (K.told snk.old) (K.told snk.new) (replicate count code) }
    ensures keeps_sink { KeepsSink K.Sink snk.old snk.new }
    ensures cause { HasCause (K.faults snk.old) (K.faults snk.new) result }
{
    let mut done = 0;
    while done < count {
        let more = (count - done).min(CODES);
        write_all(snk, &codes[..more])?;
        done += more;
    }
    Ok(())
}
