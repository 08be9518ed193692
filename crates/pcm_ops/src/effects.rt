//! Operations on whole pieces of bytes: gain, the weighted sums of a mix, clamping of sums to samples, and copying.

ghost use Rattle.std.specs.Prelude.{◌≡◌, ◌+◌, ◌*◌, ◌%◌, ◌≤◌, ℕ, length, map, unsigned_abs, All};
ghost use Rattle.std.specs.Simd.Lanes.{zip2};
ghost use Rattle.pcm_ops.specs.Samples.{samples, bytes, gained, mixed, clamped, IsSum};

use crate::bytes::{lanes_at, put_lanes, put_sample, sample_at};
use crate::items::{LANES, clamped, clamped_lanes, each_sum_fits, scaled, scaled_lanes};
use std::simd::prelude::*;

/// Each sample times `gain` 4096ths, rounded toward minus infinity and clamped.
pub fn gain_into(from: &[u8], gain: u32, to: &mut [u8])
    requires whole { length from.now % 2 ≡ 0 }
    requires same_length { length from.now ≡ length to.old }
    requires small { gain ≤ 65535 }
    ensures { to.new ≡ bytes (map (gained gain) (samples from.now)) }
{
    let factor = gain as u16;
    let count = from.len() / 2;
    let mut i = 0;
    while count - i >= LANES {
        put_lanes(
            clamped_lanes(scaled_lanes(lanes_at(from, i), factor)),
            to,
            i,
        );
        i += LANES;
    }
    while i < count {
        put_sample(clamped(scaled(sample_at(from, i), factor)), to, i);
        i += 1;
    }
}

/// Adds each sample times `weight` 4096ths, rounded toward minus infinity, to its sum. The sums are
/// not clamped: `clamp_into` ends a mix.
pub fn mix_into(sum: &mut [i32], from: &[u8], weight: u32)
    requires two_each { length from.now ≡ 2 * length sum.old }
    requires small { weight ≤ 65535 }
    requires room { All IsSum sum.old }
    ensures value { sum.new ≡ zip2 (mixed weight) sum.old (samples from.now) }
    ensures grows { (b : ℕ) → All (λ s. unsigned_abs s ≤ b) sum.old → All (λ s. unsigned_abs s ≤ b + 524280) sum.new }
{
    let factor = weight as u16;
    let mut i = 0;
    while sum.len() - i >= LANES {
        let sums = i32x16::from_slice(&sum[i..]);
        sums.strict_add(scaled_lanes(lanes_at(from, i), factor))
            .copy_to_slice(&mut sum[i..]);
        i += LANES;
    }
    while i < sum.len() {
        sum[i] += scaled(sample_at(from, i), factor);
        i += 1;
    }
}

/// The sample nearest to each sum.
pub fn clamp_into(sum: &[i32], to: &mut [u8])
    requires { length to.old ≡ 2 * length sum.now }
    ensures { to.new ≡ bytes (map clamped sum.now) }
{
    each_sum_fits(sum);
    let mut i = 0;
    while sum.len() - i >= LANES {
        put_lanes(clamped_lanes(i32x16::from_slice(&sum[i..])), to, i);
        i += LANES;
    }
    while i < sum.len() {
        put_sample(clamped(sum[i]), to, i);
        i += 1;
    }
}

/// Each byte as it is.
pub fn copy_into(from: &[u8], to: &mut [u8])
    requires { length from.now ≡ length to.old }
    ensures { to.new ≡ from.now }
{
    to.copy_from_slice(from);
}
