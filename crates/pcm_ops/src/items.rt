//! Scaling and clamping, of one number and of sixteen lanes, and a proof that a slice's numbers fit their bits.

ghost use Rattle.std.specs.Prelude.{◌≡◌, ◌<◌, ◌≤◌, ℕ, pos, length, map, FitsSigned, unsigned_abs, slice_index_or};
ghost use Rattle.std.specs.Simd.Lanes.{Each1};
ghost use mir.Syntax.{w16, w32};
ghost use Rattle.pcm_ops.specs.Samples.{scaled, clamped};

use std::simd::prelude::*;

/// The lanes of a vector.
pub(crate) const LANES: usize = 16;

/// A sample times a factor in 4096ths, rounded down.
pub(crate) fn scaled(x: i16, factor: u16) -> i32
    ensures value { result ≡ scaled factor x }
    ensures small { unsigned_abs result ≤ 524280 }
{
    (x as i32 * factor as i32) >> 12
}

/// The nearest sample.
pub(crate) fn clamped(x: i32) -> i16
    ensures { result ≡ clamped x }
{
    x.max(-32768).min(32767) as i16
}

/// `scaled` of each lane.
#[inline(always)]
pub(crate) fn scaled_lanes(x: i16x16, factor: u16) -> i32x16
    requires len { length x ≡ 16 }
    requires fits { Each1 (FitsSigned w16) x }
    ensures value { result ≡ map (scaled factor) x }
    ensures small { Each1 (λ z. unsigned_abs z ≤ 524280) result }
{
    x.cast::<i32>().strict_mul(i32x16::splat(factor as i32)) >> 12
}

/// `clamped` of each lane.
#[inline(always)]
pub(crate) fn clamped_lanes(x: i32x16) -> i16x16
    requires len { length x ≡ 16 }
    requires fits { Each1 (FitsSigned w32) x }
    ensures value { result ≡ map clamped x }
    ensures fits { Each1 (FitsSigned w16) result }
{
    x.simd_max(i32x16::splat(-32768))
        .simd_min(i32x16::splat(32767))
        .cast::<i16>()
}

/// Shows a proof that the items of a slice are numbers of 32 bits. It does nothing, and no code is
/// left of it.
#[inline(always)]
pub(crate) fn each_sum_fits(sums: &[i32])
    ensures { (k : ℕ) → k < length sums.now → FitsSigned w32 (slice_index_or sums.now k (pos 0)) }
{
    for sum in sums {
        // The proof learns from it the number's range.
        let _sum = *sum;
    }
}
