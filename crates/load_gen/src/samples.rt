//! A mono WAV file of pseudo-random samples, made from a number and written in pieces.

ghost use Rattle.std.specs.Prelude.{◌≡◌, ◌+◌, ◌*◌, ◌/◌, ◌%◌, ◌≤◌, ◌<◌, ◌^◌, length, OnOk};
ghost use Rattle.std.specs.Io.KnownBytes.{append_known};
ghost use Rattle.outside_io.specs.Causes.{HasCause};
ghost use Rattle.outside_io.specs.Keeping.{KeepsSink};
ghost use Rattle.outside_io.specs.Moves.{AppendsFront};
ghost use Rattle.load_gen.specs.Samples.{next, after, samples, wav_from};

use omx_types::Format;
use outside_io::{Failed, Sink, write_all};
use wav_form::head_bytes;

/// The format of the made files.
const FORMAT: Format = Format::Pcm {
    rate: 8000,
    channels: 1,
};

/// How many frames are written at once, at most.
const PIECE_FRAMES: u64 = 4096;

/// The bytes of a piece.
const PIECE: usize = 8192;

/// Writes the WAV file that begins with the number `x`.
pub(crate) fn write_wav<K: Sink>(sink: &mut K, x: u64, frames: u64) -> Result<(), Failed>
    requires { frames ≤ 33000000 }
    ensures whole { OnOk result (K.told sink.new ≡ append_known (K.told sink.old) (wav_from x frames)) }
    ensures front { AppendsFront (K.told sink.old) (K.told sink.new) (wav_from x frames) }
    ensures keeps_sink { KeepsSink K.Sink sink.old sink.new }
    ensures cause { HasCause (K.faults sink.old) (K.faults sink.new) result }
{
    let mut head = [0u8; 58];
    let len = head_bytes(FORMAT, frames, &mut head);
    write_all(sink, &head[..len])?;
    write_samples(sink, x, frames)
}

/// Writes the samples of the number `x`, in pieces.
fn write_samples<K: Sink>(sink: &mut K, x: u64, frames: u64) -> Result<(), Failed>
    requires { frames ≤ 33000000 }
    ensures whole { OnOk result (K.told sink.new ≡ append_known (K.told sink.old) (samples frames x)) }
    ensures front { AppendsFront (K.told sink.old) (K.told sink.new) (samples frames x) }
    ensures keeps_sink { KeepsSink K.Sink sink.old sink.new }
    ensures cause { HasCause (K.faults sink.old) (K.faults sink.new) result }
{
    let mut piece = [0u8; PIECE];
    let mut number = x;
    let mut left = frames;
    while left > 0 {
        let count = left.min(PIECE_FRAMES);
        let bytes = 2 * count as usize;
        number = fill(&mut piece[..bytes], number);
        write_all(sink, &piece[..bytes])?;
        left -= count;
    }
    Ok(())
}

/// Fills a buffer with the next samples of the number `x`, and answers the number that they lead to.
fn fill(buf: &mut [u8], x: u64) -> u64
    requires { length buf.old % 2 ≡ 0 }
    ensures samples { buf.new ≡ samples (length buf.old / 2) x }
    ensures after { result ≡ after (length buf.old / 2) x }
{
    let mut number = x;
    for i in 0..buf.len() / 2 {
        number = number_after(number);
        let sample = ((number >> 48) as u16).to_le_bytes();
        buf[2 * i] = sample[0];
        buf[2 * i + 1] = sample[1];
    }
    number
}

fn number_after(x: u64) -> u64
    ensures { result ≡ next x }
{
    x.wrapping_mul(6364136223846793005)
        .wrapping_add(1442695040888963407)
}
