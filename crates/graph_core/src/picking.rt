//! The headers of a work: the front of the `todo` of each port that gives one.

ghost use Rattle.std.specs.Prelude.{◌≡◌, ◌+◌, ◌≤◌, None, length, map, take, option_map};
ghost use Rattle.il_machine.specs.World.{ports_of};
ghost use Rattle.il_component.specs.Entries.{component_of};
ghost use Rattle.port_stock.specs.Kept.{stocked};
ghost use Rattle.port_stock.specs.Conditions.{IsPort, number_of};
ghost use Rattle.port_rules.specs.Tests.{HasAllPorts};
ghost use Rattle.graph_core.specs.Claiming.{AreFree, AreFronts, ArePorts, IsFront, IsFrontWhere, all_out, gives_to, goes_out, out_where};

use header_core::Header;
use il_component::Component;
use il_machine::{Owner, Port, PortKey};
use port_rules::gives_header;
use port_stock::Stock;
use std::mem::replace;
use work_landing::Places;

/// Moves the front of a port's `todo`, where there is one, to a free place.
fn pick_front(stock: &mut Stock, port: PortKey, place: &mut Option<Header>)
    requires free { place.old ≡ None }
    requires port { IsPort port (stocked stock.old) }
    ensures front { IsFront port place.new (stocked stock.old) }
    ensures stock { stocked stock.new ≡ goes_out port (stocked stock.old) }
{
    let Some(header) = stock.pull_todo(port) else {
        return;
    };
    stock.give_header(header.id(), Owner::Work(port.component));
    match replace(place, Some(header)) {
        None => {}
        Some(_) => unreachable!(),
    }
}

/// The same where the port gives a header.
fn pick_where(stock: &mut Stock, port: PortKey, gives: bool, place: &mut Option<Header>)
    requires free { place.old ≡ None }
    requires port { IsPort port (stocked stock.old) }
    ensures front { IsFrontWhere gives port place.new (stocked stock.old) }
    ensures stock { stocked stock.new ≡ out_where gives port (stocked stock.old) }
{
    if gives {
        pick_front(stock, port, place);
    }
}

/// One of each port that gives one, from this port on.
fn pick_ports(
    stock: &mut Stock,
    component: u64,
    gives: &[bool],
    places: &mut [Option<Header>],
    port: u32,
)
    requires free { AreFree places.old }
    requires few { length gives.now ≤ length places.old }
    requires ports { port + length places.old ≤ 9 }
    requires there { ArePorts component port gives.now (stocked stock.old) }
    ensures fronts { AreFronts component port gives.now places.new (stocked stock.old) }
    ensures stock { stocked stock.new ≡ all_out component port gives.now (stocked stock.old) }
{
    let [first, rest @ ..] = gives else {
        return;
    };
    if let Some((place, places)) = places.split_first_mut() {
        pick_where(stock, PortKey { component, port }, *first, place);
        pick_ports(stock, component, rest, places, port + 1);
    }
}

/// Whether the port gives a header to the work, which an announcement has none of.
fn gives_to<C>(component: &Component<C>, port: Port, announces: bool) -> bool
    ensures { result ≡ gives_to announces (component_of component.now) port }
{
    !announces && gives_header(component, port)
}

/// Which ports give a header to the work.
fn giving<C>(stock: &Stock, component: &Component<C>, announces: bool) -> [bool; 9]
    requires { HasAllPorts (component_of component.now) (stocked stock.now) }
    ensures { take (length (ports_of (component_of component.now))) result ≡ map (gives_to announces (component_of component.now)) (ports_of (component_of component.now)) }
{
    let mut gives = [false; 9];
    for index in 0..component.ports() {
        let Some(port) = component.port(index) else {
            unreachable!()
        };
        gives[index as usize] = gives_to(component, port, announces);
    }
    gives
}

/// The headers of the component's work go out, to places that are free.
pub(crate) fn pick_up<C>(
    stock: &mut Stock,
    component: &Component<C>,
    announces: bool,
    headers: &mut Places,
)
    requires free { AreFree headers.old }
    requires ports { HasAllPorts (component_of component.now) (stocked stock.old) }
    ensures fronts { AreFronts component.now.handle.generation 0 (map (gives_to announces (component_of component.now)) (ports_of (component_of component.now))) headers.new (stocked stock.old) }
    ensures stock { stocked stock.new ≡ all_out component.now.handle.generation 0 (map (gives_to announces (component_of component.now)) (ports_of (component_of component.now))) (stocked stock.old) }
{
    let gives = giving(stock, component, announces);
    pick_ports(
        stock,
        component.handle().generation,
        &gives[..component.ports() as usize],
        headers,
        0,
    );
}

/// The numbers of the headers.
fn note_numbers(places: &[Option<Header>], numbers: &mut [Option<u64>])
    requires { length places.now ≡ length numbers.old }
    ensures { numbers.new ≡ map (option_map number_of) places.now }
{
    if let ([place, places @ ..], Some((number, numbers))) = (places, numbers.split_first_mut()) {
        *number = match place {
            Some(header) => Some(header.id()),
            None => None,
        };
        note_numbers(places, numbers);
    }
}

/// The numbers of the headers, by their ports.
pub(crate) fn numbers_of(places: &Places) -> [Option<u64>; 9]
    ensures { result ≡ map (option_map number_of) places.now }
{
    let mut numbers = [None; 9];
    note_numbers(places, &mut numbers);
    numbers
}
