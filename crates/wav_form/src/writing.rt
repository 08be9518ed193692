//! The head of a WAV file is written, with a fact chunk where its format is A-law or mu-law.

ghost use Rattle.std.specs.Prelude.{◌≡◌, ◌+◌, ◌*◌, ◌≤◌, ◌^◌, ◌<◌, ◌++◌, length, take, drop, codes};
ghost use Rattle.omx_types.specs.Formats.{IsWithinLimits, frame_bytes_of};
ghost use Rattle.byteorder.specs.Endian.{little_bytes};
ghost use Rattle.omx_types.specs.Formats.{is_pcm};
ghost use Rattle.part_forms.specs.Writing.{head_len, head_of, format_chunk, fact_chunk, tag_of, bits_of, fields_of};
ghost use Rattle.wav_form.specs.Writing.{Puts};

use byteorder::{ByteOrder, LittleEndian};
use omx_types::Format;

/// The longest head, in bytes.
const MOST_HEAD: usize = 58;

/// Writes the head of the WAV file of these frames at the front of `out`: 44 bytes for PCM, 58 for A-law and mu-law.
/// The samples follow it, and one zero byte where their number of bytes is odd.
pub fn head_bytes(format: Format, frames: u64, out: &mut [u8; 58]) -> usize
    requires lawful { IsWithinLimits format }
    requires fits { frames * frame_bytes_of format ≤ 134217728 }
    ensures count { result ≡ head_len format }
    ensures written { take result out.new ≡ head_of format frames }
    ensures rest { drop result out.new ≡ drop result out.old }
{
    let size = samples_size(format, frames);
    let at = put(out, 0, b"RIFF");
    let at = put_u32(out, at, len_of_head(format) + size + size % 2 - 8);
    let at = put(out, at, b"WAVE");
    let at = put_format(out, at, format);
    let at = put_fact(out, at, format, frames);
    let at = put(out, at, b"data");
    put_u32(out, at, size)
}

/// The bytes of these frames.
fn samples_size(format: Format, frames: u64) -> u32
    requires lawful { IsWithinLimits format }
    requires fits { frames * frame_bytes_of format ≤ 134217728 }
    ensures { result ≡ frames * frame_bytes_of format }
{
    (frames * u64::from(format.frame_bytes())) as u32
}

fn len_of_head(format: Format) -> u32
    ensures { result ≡ head_len format }
{
    if is_pcm(format) { 44 } else { 58 }
}

fn is_pcm(format: Format) -> bool
    ensures { result ≡ is_pcm format }
{
    match format {
        Format::Pcm {
            rate: _,
            channels: _,
        } => true,
        Format::Alaw {
            rate: _,
            channels: _,
        }
        | Format::Mulaw {
            rate: _,
            channels: _,
        }
        | Format::Auto => false,
    }
}

/// The number that stands for a format: 1 for PCM, 6 for A-law, 7 for mu-law. No file has a format that isn't known.
fn tag(format: Format) -> u16
    ensures { result ≡ tag_of format }
{
    match format {
        Format::Pcm {
            rate: _,
            channels: _,
        } => 1,
        Format::Alaw {
            rate: _,
            channels: _,
        } => 6,
        Format::Mulaw {
            rate: _,
            channels: _,
        } => 7,
        Format::Auto => 0,
    }
}

/// The bits of a sample.
fn bits(format: Format) -> u16
    ensures { result ≡ bits_of format }
{
    if is_pcm(format) { 16 } else { 8 }
}

fn put_format(out: &mut [u8; 58], at: usize, format: Format) -> usize
    requires lawful { IsWithinLimits format }
    requires room { at ≤ 12 }
    ensures { Puts out.old out.new at result (format_chunk format) }
{
    let at = put(out, at, b"fmt ");
    if is_pcm(format) {
        let at = put_u32(out, at, 16);
        put_fields(out, at, format)
    } else {
        let at = put_u32(out, at, 18);
        let at = put_fields(out, at, format);
        put_u16(out, at, 0)
    }
}

fn put_fields(out: &mut [u8; 58], at: usize, format: Format) -> usize
    requires lawful { IsWithinLimits format }
    requires room { at ≤ 20 }
    ensures { Puts out.old out.new at result (fields_of format) }
{
    let frame_bytes = format.frame_bytes();
    let at = put_u16(out, at, tag(format));
    let at = put_u16(out, at, format.channels() as u16);
    let at = put_u32(out, at, format.rate());
    let at = put_u32(out, at, format.rate() * frame_bytes);
    let at = put_u16(out, at, frame_bytes as u16);
    put_u16(out, at, bits(format))
}

fn put_fact(out: &mut [u8; 58], at: usize, format: Format, frames: u64) -> usize
    requires room { at ≤ 38 }
    requires fits { frames < 2 ^ 32 }
    ensures { Puts out.old out.new at result (fact_chunk format frames) }
{
    if is_pcm(format) {
        return at;
    }
    let at = put(out, at, b"fact");
    let at = put_u32(out, at, 4);
    put_u32(out, at, frames as u32)
}

fn put_u16(out: &mut [u8; 58], at: usize, value: u16) -> usize
    requires { at + 2 ≤ MOST_HEAD }
    ensures { Puts out.old out.new at result (little_bytes 2 value) }
{
    let mut bytes = [0u8; 2];
    LittleEndian::write_u16(&mut bytes, value);
    put(out, at, &bytes)
}

fn put_u32(out: &mut [u8; 58], at: usize, value: u32) -> usize
    requires { at + 4 ≤ MOST_HEAD }
    ensures { Puts out.old out.new at result (little_bytes 4 value) }
{
    let mut bytes = [0u8; 4];
    LittleEndian::write_u32(&mut bytes, value);
    put(out, at, &bytes)
}

/// Puts bytes at an offset, and answers the offset behind them.
fn put(out: &mut [u8; 58], at: usize, bytes: &[u8]) -> usize
    requires { at + length bytes.now ≤ MOST_HEAD }
    ensures { Puts out.old out.new at result bytes.now }
{
    let end = at + bytes.len();
    out[at..end].copy_from_slice(bytes);
    end
}
