//! The media time at a wall moment, and the first wall moment at which a media time is reached.

ghost use Rattle.std.specs.Prelude.{◌≡◌, ◌^◌, ◌≤◌};
ghost use Rattle.clock_core.specs.Pace.{IsSlow, IsFirst, media_at, first_at, first_within};

/// A media time of 65,536ths: a scale of this many goes on by one in a moment.
const WHOLE: u64 = 65_536;

/// The last wall moment that a clock knows.
const LAST: u64 = 1 << 53;

/// A media time that goes on: at the wall moment `since` it was `media`.
#[derive(Clone, Copy)]
pub(crate) struct Pace {
    pub(crate) since: u64,
    pub(crate) media: u64,
    pub(crate) scale: u32,
}

/// The media time at a wall moment.
///
/// A product of the moments and the scale may have 73 bits. So whole runs of 65,536 moments go on by the
/// scale itself, and only the moments of the last run, which are fewer, are multiplied by it.
pub(crate) fn media_at(pace: Pace, wall: u64) -> u64
    requires slow { IsSlow pace }
    requires from { pace.since ≤ wall }
    requires within { wall ≤ 2 ^ 53 }
    ensures { result ≡ media_at pace wall }
{
    let elapsed = wall - pace.since;
    let scale = u64::from(pace.scale);
    let runs = elapsed / WHOLE;
    let rest = elapsed % WHOLE;
    pace.media + runs * scale + rest * scale / WHOLE
}

/// The first wall moment at which that media time is reached.
///
/// It is at most 2^53, so the runs of whole scales that it takes fit. What is left is less than the scale,
/// and 65,536 times of it has 36 bits.
pub(crate) fn first_at(pace: Pace, media: u64) -> u64
    requires slow { IsSlow pace }
    requires reached { media ≤ media_at pace (2 ^ 53) }
    ensures moment { result ≡ first_at pace media }
    ensures first { IsFirst pace media result }
    ensures within { result ≤ 2 ^ 53 }
{
    if media <= pace.media {
        return pace.since;
    }
    let scale = u64::from(pace.scale);
    let left = media - pace.media;
    let runs = left / scale;
    let rest = left % scale;
    pace.since + runs * WHOLE + (rest * WHOLE).div_ceil(scale)
}

/// That moment, if it isn't behind the last one.
pub(crate) fn first_within(pace: Pace, media: u64) -> Option<u64>
    requires slow { IsSlow pace }
    ensures { result ≡ first_within pace media }
{
    if media <= media_at(pace, LAST) {
        Some(first_at(pace, media))
    } else {
        None
    }
}
