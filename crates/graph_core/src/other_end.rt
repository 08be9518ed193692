//! The other end of a tunnel, found by its key.

ghost use Rattle.std.specs.Prelude.{◌≡◌, ◌<◌, length, nat_eq, position, option_map, slice_get, IfSome, MatchOption, true};
ghost use Rattle.il_machine.specs.Flow.{other_end};
ghost use Rattle.graph_core.specs.Entries.{components_of};
ghost use Rattle.graph_core.specs.OtherEnd.{NumbersDiffer, end_seen};

use il_component::Component;
use il_machine::Port;

/// An end of a tunnel: the place of its component, and the port.
#[derive(Clone, Copy)]
pub struct End {
    pub place: usize,
    pub port: Port,
}

fn has_number<C>(component: &Component<C>, number: u64) -> bool
    ensures { result ≡ nat_eq component.now.handle.generation number }
{
    component.handle().generation == number
}

/// The place of the component of the number, found by halves. Numbers rise by place, but this isn't relied on.
fn halved_place<C>(components: &[Component<C>], number: u64) -> Option<usize>
    ensures { IfSome result (λ place. MatchOption (slice_get components.now place) ⊥ (λ e. nat_eq e.handle.generation number ≡ true)) }
{
    let place = components
        .binary_search_by_key(&number, |component| component.handle().generation)
        .ok()?;
    let component = components.get(place)?;
    if has_number(component, number) {
        Some(place)
    } else {
        None
    }
}

/// The place of the component of the number.
pub fn place_numbered<C>(components: &[Component<C>], number: u64) -> Option<usize>
    requires { NumbersDiffer components.now }
    ensures place { result ≡ position (λ e. nat_eq e.handle.generation number) components.now }
    ensures within { IfSome result (λ i. i < length components.now) }
{
    if let Some(place) = halved_place(components, number) {
        return Some(place);
    }
    components
        .iter()
        .position(|component| has_number(component, number))
}

/// The other end of the port's tunnel, if it is joined.
pub fn other_end<C>(components: &[Component<C>], port: Port) -> Option<End>
    requires { NumbersDiffer components.now }
    ensures end { result ≡ option_map end_seen (other_end (components_of components.now) port) }
    ensures within { IfSome result (λ end. end.place < length components.now) }
{
    let peer = port.state.link?.peer;
    let place = place_numbered(components, peer.component)?;
    let port = components[place].port(peer.port)?;
    Some(End { place, port })
}
