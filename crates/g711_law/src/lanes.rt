//! What both compandings do with vectors of sixteen lanes.

ghost use Rattle.std.specs.Prelude.{◌≡◌, ◌-◌, ◌<◌, min, max, length, map, FitsSigned, if◌then◌else◌};
ghost use Rattle.std.specs.Int.{is_negative};
ghost use Rattle.std.specs.Simd.Lanes.{zip2, Each1};
ghost use mir.Syntax.{w16};

use std::simd::prelude::*;

/// The lesser of two lanes.
#[inline(always)]
pub(crate) fn lesser(a: u16x16, b: u16x16) -> u16x16
    ensures { result ≡ zip2 min a b }
{
    a.simd_min(b)
}

/// The greater of two lanes.
#[inline(always)]
pub(crate) fn greater(a: u16x16, b: u16x16) -> u16x16
    ensures { result ≡ zip2 max a b }
{
    a.simd_max(b)
}

/// How far each lane is above `least`, and 0 where it is not.
#[inline(always)]
pub(crate) fn excess(w: u16x16, least: u16) -> u16x16
    requires len { length w ≡ 16 }
    requires fits { Each1 (λ x. x < 512) w }
    ensures { result ≡ map (λ x. x - least) w }
{
    greater(w, u16x16::splat(least)) - u16x16::splat(least)
}

/// One of two numbers for each lane, by its sign.
#[inline(always)]
pub(crate) fn by_sign(x: i16x16, negative: u16, other: u16) -> u16x16
    requires len { length x ≡ 16 }
    requires fits { Each1 (FitsSigned w16) x }
    ensures { result ≡ map (λ y. if is_negative y then negative else other) x }
{
    x.simd_lt(i16x16::splat(0))
        .select(u16x16::splat(negative), u16x16::splat(other))
}
