//! The format that a format chunk says, where it is within the limits, or the one already known.

ghost use Rattle.std.specs.Prelude.{◌≡◌, ◌≢◌, ◌+◌, ◌<◌, ◌≤◌, ◌^◌, length, take, drop, Some, None, true, is_some, ◌||◌, IfOk, IfErr, IfSome, OnOk, Err};
ghost use Rattle.omx_types.specs.Formats.{IsWithinLimits, rate_of, channels_of};
ghost use Rattle.byteorder.specs.Endian.{little_from};
ghost use Rattle.outside_io.specs.Asking.{AsksWithin};
ghost use Rattle.outside_io.specs.Causes.{Rose};
ghost use Rattle.outside_io.specs.Keeping.{KeepsSource};
ghost use Rattle.outside_io.specs.Moves.{WhereTold};
ghost use Rattle.outside_io.specs.Stops.{GaveNothing};
ghost use Rattle.wav_form.specs.Chunks.{end_of};
ghost use Rattle.wav_form.specs.Passing.{is_format};
ghost use Rattle.wav_form.specs.Reading.{format_from, format_in, format_or_bad};
ghost use Rattle.wav_form.specs.Search.{view, format_after};
ghost use Rattle.wav_form.specs.Stops.{UnlessStopped, IfShort};

use crate::chunks::ChunkHead;
use crate::filling::fill_from;
use byteorder::{ByteOrder, LittleEndian};
use omx_types::{Format, WavFault};
use outside_io::Source;

/// The bytes of a format chunk that are looked at.
const FIELDS: u64 = 16;

/// The format that is known behind a chunk: the known one, or else that of a format chunk.
pub(crate) fn known_format<S: Source>(
    src: &mut S,
    known: Option<Format>,
    chunk: &ChunkHead,
) -> Result<Option<Format>, WavFault>
    requires within { chunk.now.content ≤ S.size src.old }
    requires small { S.size src.old < 2 ^ 63 }
    requires known { IfSome known IsWithinLimits }
    ensures answer { WhereTold (S.told src.old) (λ bytes.
        UnlessStopped result (λ r. r ≡ format_after bytes known (view chunk.now))) }
    ensures within { IfOk result (λ format. IfSome format IsWithinLimits) }
    ensures reached { WhereTold (S.ends src.old) (λ end. OnOk result (known ≡ None → is_format (view chunk.now) ≡ true →
        chunk.now.content + 16 ≤ end)) }
    ensures known { IfOk result (λ format. is_some format ≡ (is_some known || is_format (view chunk.now))) }
    ensures keeps_source { KeepsSource S.Source src.old src.new }
    ensures read { result ≡ Err WavFault.Read → Rose (S.faults src.old) (S.faults src.new) }
    ensures stays { result ≢ Err WavFault.Read → S.faults src.new ≡ S.faults src.old }
    ensures asks { AsksWithin (S.asked src.old) (S.asked src.new) (end_of (view chunk.now)) }
    ensures short { IfErr result (λ fault. IfShort fault (GaveNothing (S.size src.old) (S.ends src.old) chunk.now.content)) }
    ensures inside { IfErr result (λ fault. IfShort fault (λ at _. at < end_of (view chunk.now))) }
{
    if known.is_some() || !chunk.is_format() {
        return Ok(known);
    }
    Ok(Some(read_format(src, chunk)?))
}

/// What a format chunk says.
fn read_format<S: Source>(src: &mut S, chunk: &ChunkHead) -> Result<Format, WavFault>
    requires within { chunk.now.content ≤ S.size src.old }
    requires small { S.size src.old < 2 ^ 63 }
    ensures answer { WhereTold (S.told src.old) (λ bytes.
        UnlessStopped result (λ r. r ≡ format_in bytes (view chunk.now))) }
    ensures within { IfOk result IsWithinLimits }
    ensures reached { WhereTold (S.ends src.old) (λ end. OnOk result (chunk.now.content + 16 ≤ end)) }
    ensures keeps_source { KeepsSource S.Source src.old src.new }
    ensures read { result ≡ Err WavFault.Read → Rose (S.faults src.old) (S.faults src.new) }
    ensures stays { result ≢ Err WavFault.Read → S.faults src.new ≡ S.faults src.old }
    ensures asks { AsksWithin (S.asked src.old) (S.asked src.new) (end_of (view chunk.now)) }
    ensures short { IfErr result (λ fault. IfShort fault (GaveNothing (S.size src.old) (S.ends src.old) chunk.now.content)) }
    ensures inside { IfErr result (λ fault. IfShort fault (λ at _. at < end_of (view chunk.now))) }
{
    let size = u64::from(chunk.size);
    if size < FIELDS || chunk.content + size > src.size() {
        return Err(WavFault::BadFormat);
    }
    let mut fields = [0u8; 16];
    fill_from(src, chunk.content, &mut fields)?;
    format_of(&fields)
}

/// The format of 16 bytes: tag, channels, rate, bytes per second, block size, bits.
fn format_of(fields: &[u8; 16]) -> Result<Format, WavFault>
    ensures answer { result ≡ format_from (little_from 0 2 fields.now) (little_from 2 2 fields.now)
        (little_from 4 4 fields.now) (little_from 14 2 fields.now) }
    ensures within { IfOk result IsWithinLimits }
{
    let tag = LittleEndian::read_u16(fields);
    let channels = u32::from(LittleEndian::read_u16(&fields[2..]));
    let rate = LittleEndian::read_u32(&fields[4..]);
    let bits = LittleEndian::read_u16(&fields[14..]);
    match tag {
        1 => format_if_lawful(Format::Pcm { rate, channels }, bits, 16),
        6 => format_if_lawful(Format::Alaw { rate, channels }, bits, 8),
        7 => format_if_lawful(Format::Mulaw { rate, channels }, bits, 8),
        _ => Err(WavFault::UnsupportedTag(u32::from(tag))),
    }
}

/// The format, where its rate and channels are within their limits and its bits are those that it has.
fn format_if_lawful(format: Format, bits: u16, wanted: u16) -> Result<Format, WavFault>
    ensures answer { result ≡ format_or_bad format (rate_of format) (channels_of format) bits wanted }
    ensures within { IfOk result IsWithinLimits }
{
    let lawful = (1..=768_000).contains(&format.rate()) && (1..=8).contains(&format.channels());
    if lawful && bits == wanted {
        Ok(format)
    } else {
        Err(WavFault::BadFormat)
    }
}
