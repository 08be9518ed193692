//! Samples as RTP packets, each with its header and behind its length, in network byte order.

ghost use Rattle.std.specs.Prelude.{◌≡◌, ℕ, ◌+◌, ◌*◌, ◌%◌, ◌≤◌, ◌<◌, ◌^◌, ◌++◌, List, length, take, drop};
ghost use Rattle.byteorder.specs.Endian.{big_bytes};
ghost use Rattle.wav_form.specs.Writing.{Puts};
ghost use Rattle.rtp_parts.specs.Packets.{header};
ghost use Rattle.rtp_parts.specs.Packing.{packet_count, texts_of};

use crate::companding::payload_type;
use crate::packing::PACKET_FRAMES;
use byteorder::{BigEndian, ByteOrder};
use g711_law::Companding;

const FRAMES: usize = PACKET_FRAMES as usize;

/// Puts packets at the front of `out`, each behind its length, and answers how many bytes they are: those of these samples,
/// from the packet of number `first` on.
pub(crate) fn put_records(
    out: &mut [u8],
    companding: Companding,
    first: u64,
    samples: &[u8],
) -> usize
    requires few { first ≤ 419431 }
    requires piece { length samples.now ≤ 20480 }
    requires room { length out.old ≡ 22272 }
    ensures within { result ≤ 22272 }
    ensures texts { (all : List ℕ) → samples.now ≡ take (160 * packet_count (length samples.now)) (drop (160 * first) all) →
        take result out.new ≡ texts_of companding all first (packet_count (length samples.now)) }
{
    let mut at = 0;
    for k in 0..samples.len().div_ceil(FRAMES) {
        let from = FRAMES * k;
        let to = samples.len().min(from + FRAMES);
        at = put_record(out, at, companding, first + k as u64, &samples[from..to]);
    }
    at
}

/// Puts one packet behind its length at a place, and answers the place behind it.
fn put_record(out: &mut [u8], at: usize, companding: Companding, number: u64, piece: &[u8]) -> usize
    requires few { number < 2 ^ 20 }
    requires piece { length piece.now ≤ 160 }
    requires room { at + length piece.now + 14 ≤ length out.old }
    ensures { Puts out.old out.new at result
        (big_bytes 2 (length (header companding (number % 65536) (160 * number) 1 ++ piece.now)) ++ (header companding (number % 65536) (160 * number) 1 ++ piece.now)) }
{
    let at = put_u16(out, at, (piece.len() + 12) as u16);
    let at = put(out, at, &[0x80, payload_type(companding)]);
    let at = put_u16(out, at, (number % 65_536) as u16);
    let at = put_u32(out, at, (PACKET_FRAMES * number) as u32);
    let at = put_u32(out, at, 1);
    put(out, at, piece)
}

fn put_u16(out: &mut [u8], at: usize, value: u16) -> usize
    requires { at + 2 ≤ length out.old }
    ensures { Puts out.old out.new at result (big_bytes 2 value) }
{
    let mut bytes = [0u8; 2];
    BigEndian::write_u16(&mut bytes, value);
    put(out, at, &bytes)
}

fn put_u32(out: &mut [u8], at: usize, value: u32) -> usize
    requires { at + 4 ≤ length out.old }
    ensures { Puts out.old out.new at result (big_bytes 4 value) }
{
    let mut bytes = [0u8; 4];
    BigEndian::write_u32(&mut bytes, value);
    put(out, at, &bytes)
}

/// Puts bytes at a place, and answers the place behind them.
fn put(out: &mut [u8], at: usize, bytes: &[u8]) -> usize
    requires { at + length bytes.now ≤ length out.old }
    ensures { Puts out.old out.new at result bytes.now }
{
    let end = at + bytes.len();
    out[at..end].copy_from_slice(bytes);
    end
}
