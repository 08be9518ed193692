//! What ends with a step.
ghost use Rattle.std.specs.Prelude.{◌≡◌, ◌&&◌};
ghost use Rattle.std.specs.List.{list_all};
ghost use Rattle.work_landing.specs.Returning.{ended_by, has_last, last_at, last_by};

use crate::back::Way;
use header_core::Header;

/// Whether it is an input's header without a frame, with the flag of the stream's end.
fn is_last(way: Way, header: &Header) -> bool
    ensures { result ≡ last_by way header.now }
{
    way.input && header.content().len() / way.frame == 0 && header.flags() % 2 == 1
}

/// Whether the port's header, if it has one, is its last.
pub(crate) fn ends(way: Way, place: &Option<Header>) -> bool
    ensures { result ≡ last_at way place.now }
{
    match place {
        Some(header) => is_last(way, header),
        None => true,
    }
}

/// Whether all inputs have ended.
pub(crate) fn all_end(ways: &[Way], places: &[Option<Header>]) -> bool
    ensures { result ≡ list_all (λ input. input) (ended_by ways.now places.now) }
{
    let [way, ways @ ..] = ways else {
        return true;
    };
    let [place, places @ ..] = places else {
        return true;
    };
    !way.input || (ends(*way, place) && all_end(ways, places))
}

/// Whether one of the headers is the last one of its input.
pub(crate) fn has_last(ways: &[Way], places: &[Option<Header>]) -> bool
    ensures { result ≡ has_last ways.now places.now }
{
    let [way, ways @ ..] = ways else {
        return false;
    };
    match places {
        [] => false,
        [Some(header), ..] if is_last(*way, header) => true,
        [_, places @ ..] => has_last(ways, places),
    }
}
