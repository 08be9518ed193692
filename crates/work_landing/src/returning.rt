//! The headers of a work come back.
ghost use Rattle.std.specs.Prelude.{◌≡◌, ◌+◌, ◌≤◌, length, None};
ghost use Rattle.port_stock.specs.Kept.{stocked};
ghost use Rattle.il_component.specs.Entries.{component_of};
ghost use Rattle.work_landing.specs.Places.{AreFree};
ghost use Rattle.work_landing.specs.Returning.{AllCanLand, CanLandAt, GetsNotes, all_noticed, all_notes, all_put, back_at, carries_by, mark_from, noticed_at, notes_at, port_of, put_at};

use crate::back::{Back, Known, Way};
use crate::landing::{bring_back, is_own};
use header_core::Header;
use il_component::Component;
use il_machine::{Mark, PortKey};
use omx_types::Handle;
use port_stock::Stock;

fn back_of(known: Known, way: Way, header: &Header) -> Back
    ensures { result ≡ back_at known way header.now }
{
    let is_done = if way.input {
        header.content().len() / way.frame == 0
    } else {
        known.filled
    };
    Back {
        input: way.input,
        finished: !known.failed && is_done,
        returning: way.returning,
        joined: way.joined,
        failed: known.failed,
    }
}

/// Whether an input's header is spent and has another component's mark.
fn carries(way: Way, failed: bool, component: Handle, header: &Header) -> bool
    ensures { result ≡ carries_by way failed component header.now }
{
    let is_spent = !failed && header.content().len() / way.frame == 0;
    let is_other = match header.mark() {
        Some(mark) => !is_own(component, mark),
        None => false,
    };
    way.input && is_spent && is_other
}

/// The mark that is carried on: the first one of those, by port.
pub(crate) fn mark_from(
    ways: &[Way],
    failed: bool,
    component: Handle,
    places: &[Option<Header>],
) -> Option<Mark>
    ensures { result ≡ mark_from ways.now failed component places.now }
{
    let [way, ways @ ..] = ways else {
        return None;
    };
    match places {
        [] => None,
        [Some(header), ..] if carries(*way, failed, component, header) => header.mark(),
        [_, places @ ..] => mark_from(ways, failed, component, places),
    }
}

/// Brings the header of a place back, if there is one.
fn bring_place<C>(
    stock: &mut Stock,
    component: &mut Component<C>,
    place: &mut Option<Header>,
    way: Way,
    known: Known,
    port: u32,
)
    requires { CanLandAt (port_of known.component port) known way place.old (stocked stock.old) (component_of component.old) }
    ensures free { place.new ≡ None }
    ensures stock { stocked stock.new ≡ put_at known port way place.old (stocked stock.old) }
    ensures notes { GetsNotes component.old component.new (notes_at known way place.old) (noticed_at known way place.old) }
{
    let Some(header) = place.take() else {
        return;
    };
    let back = back_of(known, way, &header);
    let key = PortKey {
        component: known.component.generation,
        port,
    };
    bring_back(
        stock,
        component,
        key,
        header,
        back,
        known.component,
        known.mark,
    );
}

/// Brings all of them back, by rising port from this one on.
pub(crate) fn bring_places<C>(
    stock: &mut Stock,
    component: &mut Component<C>,
    places: &mut [Option<Header>],
    ways: &[Way],
    known: Known,
    port: u32,
)
    requires ports { port + length places.old ≤ 9 }
    requires can { AllCanLand known port ways.now places.old (stocked stock.old) (component_of component.old) }
    ensures free { AreFree places.new }
    ensures stock { stocked stock.new ≡ all_put known port ways.now places.old (stocked stock.old) }
    ensures notes { GetsNotes component.old component.new (all_notes known ways.now places.old) (all_noticed known ways.now places.old) }
{
    let [way, rest @ ..] = ways else {
        return;
    };
    if let Some((place, places)) = places.split_first_mut() {
        bring_place(stock, component, place, *way, known, port);
        bring_places(stock, component, places, rest, known, port + 1);
    }
}
