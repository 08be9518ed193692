//! The curve of straight lines that both compandings' steps lie on.

ghost use Rattle.std.specs.Prelude.{◌≡◌, ◌<◌, length, map};
ghost use Rattle.std.specs.Simd.Lanes.{Each1};
ghost use Rattle.g711_law.specs.Lines.{compressed, expanded};

use crate::lanes::{excess, greater, lesser};
use std::simd::prelude::*;

/// The step of a magnitude that is counted in the first segments' steps: 32 steps of width 1, and
/// then 16 of each further power of two.
pub(crate) fn compressed(q: u16) -> u16
    requires { q < 4096 }
    ensures { result ≡ compressed 7 q }
{
    let doublings = 11_u32.saturating_sub(q.leading_zeros()) as u16;
    16 * doublings + (q >> doublings)
}

/// `compressed` of each lane.
#[inline(always)]
pub(crate) fn compressed_lanes(q: u16x16) -> u16x16
    requires len { length q ≡ 16 }
    requires small { Each1 (λ x. x < 4096) q }
    ensures { result ≡ map (compressed 7) q }
{
    let sixteen = u16x16::splat(16);
    let mut step = q >> 7;
    step = lesser(q >> 6, step + sixteen);
    step = lesser(q >> 5, step + sixteen);
    step = lesser(q >> 4, step + sixteen);
    step = lesser(q >> 3, step + sixteen);
    step = lesser(q >> 2, step + sixteen);
    step = lesser(q >> 1, step + sixteen);
    lesser(q, step + sixteen)
}

/// `expanded` of each lane.
#[inline(always)]
pub(crate) fn expanded_lanes(w: u16x16) -> u16x16
    requires len { length w ≡ 16 }
    requires small { Each1 (λ x. x < 512) w }
    ensures { result ≡ map (expanded 7) w }
{
    let mut height = excess(w, 224);
    height = greater(excess(w, 192), height + height);
    height = greater(excess(w, 160), height + height);
    height = greater(excess(w, 128), height + height);
    height = greater(excess(w, 96), height + height);
    height = greater(excess(w, 64), height + height);
    height = greater(excess(w, 32), height + height);
    greater(w, height + height)
}
