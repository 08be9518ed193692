//! A-law of ITU-T G.711: a sample, sixteen lanes, or a slice is encoded and decoded.

ghost use Rattle.std.specs.Prelude.{◌≡◌, ◌*◌, ◌/◌, ◌<◌, ℤ, pos, ◌≤ℤ◌, length, map, FitsSigned};
ghost use Rattle.std.specs.Simd.Lanes.{Each1};
ghost use mir.Syntax.{w8, w16};
ghost use mir.Val.{Fits};
ghost use Rattle.pcm_ops.specs.Samples.{samples, bytes};
ghost use Rattle.g711_law.specs.Steps.{AreWithin};
ghost use Rattle.g711_law.specs.Alaw.{alaw_magnitude, alaw_step, alaw_code, alaw_middle, alaw_value, alaw_half_step};

use crate::curve::{compressed, compressed_lanes, expanded_lanes};
use crate::lanes::by_sign;
use crate::slices::{Compander, decode_all, encode_all};
use std::simd::prelude::*;

/// The magnitude by which A-law finds a sample's step: one less than the sample's own where it is
/// negative.
fn alaw_magnitude(x: i16) -> u16
    ensures value { result ≡ alaw_magnitude x }
    ensures small { result < 32768 }
{
    if x < 0 { !x as u16 } else { x as u16 }
}

/// The A-law code of a sample of 16 bits (ITU-T G.711).
pub fn alaw_encode(x: i16) -> u8
    ensures code { result ≡ alaw_code x }
    ensures rising { (y : ℤ) → x ≤ℤ y → alaw_value result ≤ℤ alaw_value (alaw_code y) }
    ensures near { AreWithin (alaw_half_step (alaw_step x / 16)) x (alaw_value result) }
{
    let sign: u8 = if x < 0 { 0 } else { 0x80 };
    let step = compressed(alaw_magnitude(x) >> 4) as u8;
    (step + sign) ^ 0x55
}

/// The magnitude of a code whose every second bit was inverted back.
fn alaw_middle(inverted: u8) -> i16
    ensures { result ≡ pos (alaw_middle inverted) }
{
    let segment = (inverted >> 4) & 7;
    let step = (inverted & 15) as u16 * 16;
    let middle = if segment == 0 {
        step + 8
    } else {
        (step + 264) << (segment - 1)
    };
    middle as i16
}

/// The sample of 16 bits that an A-law code stands for (ITU-T G.711).
pub fn alaw_decode(c: u8) -> i16
    ensures value { result ≡ alaw_value c }
    ensures again { alaw_code result ≡ c }
{
    let inverted = c ^ 0x55;
    let middle = alaw_middle(inverted);
    if inverted < 0x80 { -middle } else { middle }
}

/// The magnitude of each lane.
#[inline(always)]
pub(crate) fn alaw_magnitudes(x: i16x16) -> u16x16
    requires len { length x ≡ 16 }
    requires fits { Each1 (FitsSigned w16) x }
    ensures { result ≡ map alaw_magnitude x }
{
    x.simd_max(!x).cast::<u16>()
}

/// The magnitude of each lane, where every second bit of the codes was inverted back.
#[inline(always)]
fn alaw_middles(inverted: u16x16) -> i16x16
    requires len { length inverted ≡ 16 }
    requires fits { Each1 (λ a. a < 256) inverted }
    ensures { result ≡ map (λ a. pos (alaw_middle a)) inverted }
{
    let step = inverted & u16x16::splat(0x7f);
    (expanded_lanes(step + step + u16x16::splat(1)) << 3).cast::<i16>()
}

pub(crate) struct ALaw;

impl Compander for ALaw {
    ghost code = { alaw_code };

    ghost value = { alaw_value };

    fn encode(x: i16) -> u8 {
        alaw_encode(x)
    }

    fn decode(c: u8) -> i16 {
        alaw_decode(c)
    }

    #[inline(always)]
    fn encode_lanes(x: i16x16) -> u8x16 {
        let step = compressed_lanes(alaw_magnitudes(x) >> 4);
        let sign = by_sign(x, 0, 0x80);
        ((step + sign) ^ u16x16::splat(0x55)).cast::<u8>()
    }

    #[inline(always)]
    fn decode_lanes(c: u8x16) -> i16x16 {
        let inverted = c.cast::<u16>() ^ u16x16::splat(0x55);
        let middle = alaw_middles(inverted);
        inverted
            .simd_lt(u16x16::splat(0x80))
            .select(i16x16::splat(0) - middle, middle)
    }
}

/// The A-law code of each sample (ITU-T G.711). The samples come as bytes, the lower first.
pub fn alaw_encode_all(from: &[u8], to: &mut [u8])
    requires { length from.now ≡ 2 * length to.old }
    ensures { to.new ≡ map alaw_code (samples from.now) }
{
    encode_all::<ALaw>(from, to)
}

/// The bytes of the sample that each A-law code stands for, the lower first (ITU-T G.711).
pub fn alaw_decode_all(from: &[u8], to: &mut [u8])
    requires { length to.old ≡ 2 * length from.now }
    ensures { to.new ≡ bytes (map alaw_value from.now) }
{
    decode_all::<ALaw>(from, to)
}
