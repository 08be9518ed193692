//! Why a clock refuses an act: a bad scale or mask, a port not awaited, an id taken or unknown, or no room.

ghost use Rattle.std.specs.Prelude.{◌≡◌};
ghost use Rattle.clock_core.specs.Clock.{refusal_of_request, refusal_of_act};

use crate::due::{REQUESTS, Requests};
use crate::motion::waits_for;
use crate::queue::is_outstanding;
use crate::{ClockAct, ClockRefusal, Motion};

/// The greatest scale: sixteen times the wall's pace.
const SCALES: u32 = 1_048_576;

fn refusal_of_request(requests: &Requests, id: u64) -> Option<ClockRefusal>
    ensures { result ≡ refusal_of_request id requests.now.items }
{
    if is_outstanding(requests.as_slice(), id) {
        Some(ClockRefusal::Taken)
    } else if requests.len() < REQUESTS {
        None
    } else {
        Some(ClockRefusal::Full)
    }
}

/// Why an act is refused, whatever the moment.
pub(crate) fn refusal_of_act(
    motion: Motion,
    requests: &Requests,
    act: ClockAct,
) -> Option<ClockRefusal>
    ensures { result ≡ refusal_of_act motion requests.now.items act }
{
    match act {
        ClockAct::Scale(scale) if scale > SCALES => Some(ClockRefusal::BadScale),
        ClockAct::Wait(0) => Some(ClockRefusal::BadMask),
        ClockAct::Port { port, media: _ } if !waits_for(motion, port) => Some(
            ClockRefusal::NotWaiting,
        ),
        ClockAct::Ask { id, media: _ } => refusal_of_request(requests, id),
        ClockAct::Cancel(id) if !is_outstanding(requests.as_slice(), id) => Some(
            ClockRefusal::Unknown,
        ),
        _ => None,
    }
}
