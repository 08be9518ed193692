//! The bytes of samples are coded by a companding: sixteen lanes at a time, and the rest a sample at a time.

ghost use Rattle.std.specs.Prelude.{◌≡◌, ◌*◌, ℕ, ℤ, length, map, FitsSigned};
ghost use Rattle.std.specs.Simd.Lanes.{Each1};
ghost use mir.Syntax.{w8, w16};
ghost use mir.Val.{Fits};
ghost use Rattle.pcm_ops.specs.Samples.{samples, bytes};

use pcm_ops::{lanes_at, put_lanes, put_sample, sample_at};
use std::simd::prelude::*;

/// The lanes of a vector.
const LANES: usize = 16;

/// A companding, by which a sample is coded, one at a time or sixteen.
pub(crate) trait Compander {
    ghost code: { ℤ → ℕ };

    ghost value: { ℕ → ℤ };

    fn encode(x: i16) -> u8
        ensures { result ≡ code x };

    fn decode(c: u8) -> i16
        ensures { result ≡ value c };

    fn encode_lanes(x: i16x16) -> u8x16
        requires len { length x ≡ 16 }
        requires fits { Each1 (FitsSigned w16) x }
        ensures { result ≡ map code x };

    fn decode_lanes(c: u8x16) -> i16x16
        requires len { length c ≡ 16 }
        requires fits { Each1 (Fits w8) c }
        ensures value { result ≡ map value c }
        ensures fits { Each1 (FitsSigned w16) result };
}

pub(crate) fn encode_all<L: Compander>(from: &[u8], to: &mut [u8])
    requires { length from.now ≡ 2 * length to.old }
    ensures { to.new ≡ map L.code (samples from.now) }
{
    let mut i = 0;
    while to.len() - i >= LANES {
        L::encode_lanes(lanes_at(from, i)).copy_to_slice(&mut to[i..]);
        i += LANES;
    }
    while i < to.len() {
        to[i] = L::encode(sample_at(from, i));
        i += 1;
    }
}

pub(crate) fn decode_all<L: Compander>(from: &[u8], to: &mut [u8])
    requires { length to.old ≡ 2 * length from.now }
    ensures { to.new ≡ bytes (map L.value from.now) }
{
    let mut i = 0;
    while from.len() - i >= LANES {
        put_lanes(L::decode_lanes(u8x16::from_slice(&from[i..])), to, i);
        i += LANES;
    }
    while i < from.len() {
        put_sample(L::decode(from[i]), to, i);
        i += 1;
    }
}
