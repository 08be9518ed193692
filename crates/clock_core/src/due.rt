//! Which outstanding requests are due at a moment, and the notes that they become.

ghost use Rattle.std.specs.Prelude.{◌≡◌, ◌+◌, ◌^◌, ◌<◌, ◌≤◌, ◌++◌, ◌∷◌, length, take, drop, Some, IfSome};
ghost use Rattle.clock_core.specs.Pace.{IsSlow};
ghost use Rattle.clock_core.specs.Kept.{CanGoOn};
ghost use Rattle.clock_core.specs.Next.{front_moment};
ghost use Rattle.clock_core.specs.Due.{AreInOrder, FrontIs, due_until, left_after, notes_until, note_from};

use crate::pace::{Pace, first_at, first_within, media_at};
use crate::{Fulfilled, Request};
use arrayvec::ArrayVec;

/// How many requests may be outstanding.
pub(crate) const REQUESTS: usize = 64;

/// The outstanding requests, by rising media time.
pub(crate) type Requests = ArrayVec<Request, REQUESTS>;

/// Takes out each request that is due at `until`, writes their notes from the place `start` on, and answers
/// where they end. A request is noted at its first moment, but not before `earliest`.
pub(crate) fn fulfil(
    requests: &mut Requests,
    pace: Pace,
    earliest: u64,
    until: u64,
    out: &mut [Fulfilled],
    start: usize,
) -> usize
    requires slow { IsSlow pace }
    requires from { pace.since ≤ until }
    requires within { until ≤ 2 ^ 53 }
    requires ordered { AreInOrder requests.old.items }
    requires room { start + length requests.old.items ≤ length out.old }
    ensures left { requests.new.items ≡ left_after (Some pace) until requests.old.items }
    ensures count { result ≡ start + length (due_until (Some pace) until requests.old.items) }
    ensures notes { take result out.new ≡ take start out.old ++ notes_until (Some pace) earliest until requests.old.items }
    ensures behind { drop result out.new ≡ drop result out.old }
{
    let reached = media_at(pace, until);
    let mut count = start;
    while let Some(request) = due_front(requests, reached) {
        out[count] = Fulfilled {
            id: request.id,
            wall: first_at(pace, request.media).max(earliest),
        };
        requests.remove(0);
        count += 1;
    }
    count
}

/// The same at a pace that may stand: then nothing is due.
pub(crate) fn fulfil_until(
    requests: &mut Requests,
    pace: Option<Pace>,
    earliest: u64,
    until: u64,
    out: &mut [Fulfilled],
    start: usize,
) -> usize
    requires pace { CanGoOn pace until }
    requires within { until ≤ 2 ^ 53 }
    requires ordered { AreInOrder requests.old.items }
    requires room { start + length requests.old.items ≤ length out.old }
    ensures left { requests.new.items ≡ left_after pace until requests.old.items }
    ensures count { result ≡ start + length (due_until pace until requests.old.items) }
    ensures notes { take result out.new ≡ take start out.old ++ notes_until pace earliest until requests.old.items }
    ensures behind { drop result out.new ≡ drop result out.old }
{
    match pace {
        Some(pace) => fulfil(requests, pace, earliest, until, out, start),
        None => start,
    }
}

/// The first request, if its media time is reached.
fn due_front(requests: &Requests, reached: u64) -> Option<Request>
    ensures { FrontIs reached requests.now.items result }
{
    match requests.as_slice().first() {
        Some(request) if request.media <= reached => Some(*request),
        _ => None,
    }
}

/// The moment at which the first request is due, if it isn't behind the last one.
pub(crate) fn front_moment(pace: Option<Pace>, requests: &[Request]) -> Option<u64>
    requires { CanGoOn pace (2 ^ 53) }
    ensures { result ≡ front_moment pace requests.now }
{
    let pace = pace?;
    let first = requests.first()?;
    first_within(pace, first.media)
}
