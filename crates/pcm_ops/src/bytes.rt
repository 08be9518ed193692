//! Samples of 16 bits at places among bytes, of which the lower comes first: one, or sixteen in a vector.

ghost use Rattle.std.specs.Prelude.{◌≡◌, ℕ, ◌+◌, ◌*◌, ◌≤◌, pos, [], ◌∷◌, length, take, drop, FitsSigned, slice_index_or};
ghost use Rattle.std.specs.Simd.Lanes.{Each1, put_chunk};
ghost use mir.Syntax.{w8, w16};
ghost use mir.Val.{Fits};
ghost use Rattle.pcm_ops.specs.Samples.{samples, bytes};

use std::simd::prelude::*;

/// The samples of 32 bytes.
#[inline(always)]
fn samples_of_bytes(bytes: u8x32) -> i16x16
    requires len { length bytes ≡ 32 }
    requires fits { Each1 (Fits w8) bytes }
    ensures value { result ≡ samples bytes }
    ensures fits { Each1 (FitsSigned w16) result }
{
    i16x16::from_le_bytes(bytes)
}

/// The bytes of 16 samples.
#[inline(always)]
fn bytes_of_samples(x: i16x16) -> u8x32
    requires len { length x ≡ 16 }
    requires fits { Each1 (FitsSigned w16) x }
    ensures { result ≡ bytes x }
{
    x.to_le_bytes()
}

/// The sample at a place.
#[inline(always)]
pub fn sample_at(from: &[u8], i: usize) -> i16
    requires { 2 * i + 2 ≤ length from.now }
    ensures { result ≡ slice_index_or (samples from.now) i (pos 0) }
{
    i16::from_le_bytes([from[2 * i], from[2 * i + 1]])
}

/// Writes a sample to a place.
#[inline(always)]
pub fn put_sample(x: i16, to: &mut [u8], i: usize)
    requires { 2 * i + 2 ≤ length to.old }
    ensures value { to.new ≡ put_chunk (2 * i) to.old (bytes (x ∷ [])) }
    ensures back { slice_index_or (samples to.new) i (pos 0) ≡ x }
{
    let pair = x.to_le_bytes();
    to[2 * i] = pair[0];
    to[2 * i + 1] = pair[1];
}

/// The sixteen samples from a place on.
#[inline(always)]
pub fn lanes_at(from: &[u8], i: usize) -> i16x16
    requires { 2 * i + 32 ≤ length from.now }
    ensures value { result ≡ take 16 (drop i (samples from.now)) }
    ensures len { length result ≡ 16 }
    ensures fits { Each1 (FitsSigned w16) result }
{
    samples_of_bytes(u8x32::from_slice(&from[2 * i..]))
}

/// Writes sixteen samples to the places from one on.
#[inline(always)]
pub fn put_lanes(x: i16x16, to: &mut [u8], i: usize)
    requires room { 2 * i + 32 ≤ length to.old }
    requires len { length x ≡ 16 }
    requires fits { Each1 (FitsSigned w16) x }
    ensures value { to.new ≡ put_chunk (2 * i) to.old (bytes x) }
    ensures back { take 16 (drop i (samples to.new)) ≡ x }
{
    bytes_of_samples(x).copy_to_slice(&mut to[2 * i..]);
}
