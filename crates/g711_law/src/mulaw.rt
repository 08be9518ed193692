//! Mu-law of ITU-T G.711: a sample, sixteen lanes, or a slice is encoded and decoded.

ghost use Rattle.std.specs.Prelude.{◌≡◌, ◌*◌, ◌/◌, ◌<◌, ◌≤◌, ℤ, pos, ◌≤ℤ◌, unsigned_abs, length, map, FitsSigned};
ghost use Rattle.std.specs.Simd.Lanes.{Each1};
ghost use mir.Syntax.{w16};
ghost use Rattle.pcm_ops.specs.Samples.{samples, bytes};
ghost use Rattle.g711_law.specs.Steps.{AreWithin};
ghost use Rattle.g711_law.specs.Mulaw.{mulaw_magnitude, mulaw_step, mulaw_code, mulaw_middle, mulaw_value, mulaw_half_step};

use crate::alaw::alaw_magnitudes;
use crate::curve::{compressed, compressed_lanes, expanded_lanes};
use crate::lanes::{by_sign, lesser};
use crate::slices::{Compander, decode_all, encode_all};
use std::simd::prelude::*;

/// The mu-law code of a sample of 16 bits (ITU-T G.711).
pub fn mulaw_encode(x: i16) -> u8
    ensures code { result ≡ mulaw_code x }
    ensures rising { (y : ℤ) → x ≤ℤ y → mulaw_value result ≤ℤ mulaw_value (mulaw_code y) }
    ensures near { unsigned_abs x ≤ 32636 → AreWithin (mulaw_half_step (mulaw_step x / 16)) x (mulaw_value result) }
    ensures far { AreWithin 644 x (mulaw_value result) }
{
    let sign: u8 = if x < 0 { 0x80 } else { 0 };
    let magnitude = x.unsigned_abs().min(32635);
    let step = (compressed((magnitude + 132) >> 3) - 16) as u8;
    !(step + sign)
}

/// The magnitude of a code whose every bit was inverted back.
fn mulaw_middle(inverted: u8) -> i16
    ensures { result ≡ pos (mulaw_middle inverted) }
{
    let segment = (inverted >> 4) & 7;
    let step = (inverted & 15) as u16 * 8;
    (((step + 132) << segment) - 132) as i16
}

/// The sample of 16 bits that a mu-law code stands for (ITU-T G.711).
pub fn mulaw_decode(c: u8) -> i16
    ensures value { result ≡ mulaw_value c }
    ensures again { ¬ (c ≡ 0x7f) → mulaw_code result ≡ c }
    ensures minus_zero { c ≡ 0x7f → mulaw_code result ≡ 0xff }
{
    let inverted = !c;
    let middle = mulaw_middle(inverted);
    if inverted < 0x80 { middle } else { -middle }
}

/// The magnitude of each lane, cut at 32635.
#[inline(always)]
fn mulaw_magnitudes(x: i16x16) -> u16x16
    requires len { length x ≡ 16 }
    requires fits { Each1 (FitsSigned w16) x }
    ensures { result ≡ map mulaw_magnitude x }
{
    let larger = alaw_magnitudes(x) + by_sign(x, 1, 0);
    lesser(larger, u16x16::splat(32635))
}

/// The magnitude of each lane, where every bit of the codes was inverted back.
#[inline(always)]
fn mulaw_middles(inverted: u16x16) -> i16x16
    requires len { length inverted ≡ 16 }
    requires fits { Each1 (λ u. u < 256) inverted }
    ensures { result ≡ map (λ u. pos (mulaw_middle u)) inverted }
{
    let step = inverted & u16x16::splat(0x7f);
    let height = expanded_lanes(step + step + u16x16::splat(33)) << 2;
    (height - u16x16::splat(132)).cast::<i16>()
}

pub(crate) struct MuLaw;

impl Compander for MuLaw {
    ghost code = { mulaw_code };

    ghost value = { mulaw_value };

    fn encode(x: i16) -> u8 {
        mulaw_encode(x)
    }

    fn decode(c: u8) -> i16 {
        mulaw_decode(c)
    }

    #[inline(always)]
    fn encode_lanes(x: i16x16) -> u8x16 {
        let biased = mulaw_magnitudes(x) + u16x16::splat(132);
        let step = compressed_lanes(biased >> 3) - u16x16::splat(16);
        let sign = by_sign(x, 0x80, 0);
        (u16x16::splat(0xff) - (step + sign)).cast::<u8>()
    }

    #[inline(always)]
    fn decode_lanes(c: u8x16) -> i16x16 {
        let inverted = u16x16::splat(0xff) - c.cast::<u16>();
        let middle = mulaw_middles(inverted);
        inverted
            .simd_lt(u16x16::splat(0x80))
            .select(middle, i16x16::splat(0) - middle)
    }
}

/// The mu-law code of each sample (ITU-T G.711). The samples come as bytes, the lower first.
pub fn mulaw_encode_all(from: &[u8], to: &mut [u8])
    requires { length from.now ≡ 2 * length to.old }
    ensures { to.new ≡ map mulaw_code (samples from.now) }
{
    encode_all::<MuLaw>(from, to)
}

/// The bytes of the sample that each mu-law code stands for, the lower first (ITU-T G.711).
pub fn mulaw_decode_all(from: &[u8], to: &mut [u8])
    requires { length to.old ≡ 2 * length from.now }
    ensures { to.new ≡ bytes (map mulaw_value from.now) }
{
    decode_all::<MuLaw>(from, to)
}
