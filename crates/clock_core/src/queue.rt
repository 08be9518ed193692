//! The queue of outstanding requests by media time: how an act adds one or takes one out.

ghost use Rattle.std.specs.Prelude.{◌≡◌, ◌<◌, ◌≤◌, length, insert, filter, not};
ghost use Rattle.std.specs.List.{list_any};
ghost use Rattle.clock_core.specs.Clock.{has_id, queued, requests_after};
ghost use Rattle.clock_core.specs.Kept.{HasRoomFor};
ghost use Rattle.clock_core.specs.declared.act.Request.{Request as Asked};

use crate::due::Requests;
use crate::{ClockAct, Request};

/// Whether a request of that id is outstanding.
pub(crate) fn is_outstanding(requests: &[Request], id: u64) -> bool
    ensures { result ≡ list_any (has_id id) requests.now }
{
    requests.iter().any(|request| request.id == id)
}

/// The place behind all requests whose media time isn't above that of `request`.
fn place_of(requests: &[Request], request: Request) -> usize
    ensures within { result ≤ length requests.now }
    ensures queued { insert requests.now result request ≡ queued request requests.now }
{
    for (place, other) in requests.iter().enumerate() {
        if other.media > request.media {
            return place;
        }
    }
    requests.len()
}

/// Takes the request of that id out.
fn cancel(requests: &mut Requests, id: u64)
    ensures { requests.new.items ≡ filter (λ (request : Asked). not (has_id id request)) requests.old.items }
{
    requests.retain(|request| request.id != id);
}

/// What an act does to the requests.
pub(crate) fn change(requests: &mut Requests, act: ClockAct)
    requires { HasRoomFor act requests.old.items }
    ensures { requests.new.items ≡ requests_after act requests.old.items }
{
    match act {
        ClockAct::Ask { id, media } => {
            let request = Request { id, media };
            let place = place_of(requests.as_slice(), request);
            requests.insert(place, request);
        }
        ClockAct::Cancel(id) => cancel(requests, id),
        _ => {}
    }
}
