//! Headers of tunnels: the end that supplies a tunnel makes and unmakes them.

ghost use Rattle.std.specs.Prelude.{◌≡◌, ◌<◌, ◌∷◌, ◌++◌, [], ℕ, not, nat_eq, None, Some, slice_get, option_map, IfSome, IsSome, IsSomeAnd, MatchOption};
ghost use Rattle.il_machine.specs.declared.answer.Why.TheVariants.{NotAccepting, NoBlock, NoNumber};
ghost use Rattle.il_machine.specs.Lists.{first_of_these, is_empty};
ghost use Rattle.il_machine.specs.World.{port_of};
ghost use Rattle.il_machine.specs.Headers.{seen};
ghost use Rattle.il_machine.specs.Ports.{accepting, id_of};
ghost use Rattle.il_machine.specs.Buffers.{has_no_block};
ghost use Rattle.il_machine.specs.Flow.{at_end, front_unmade, in_port, other_end, release_idle, supply_idle, with_supplied, supplied_spot};
ghost use Rattle.stock_laws.specs.Bare.{StepsBare};
ghost use Rattle.il_component.specs.Entries.{Entry, component_of};
ghost use Rattle.port_stock.specs.Kept.{stocked};
ghost use Rattle.port_stock.specs.Conditions.{IsOutside, IsPort, number_of};
ghost use Rattle.graph_core.specs.Entries.{kept, look_of, component_at, components_of};
ghost use Rattle.graph_core.specs.Clients.{KeepsAllClients};
ghost use Rattle.graph_core.specs.OtherEnd.{NumbersDiffer};
ghost use Rattle.graph_core.specs.Supplying.{HasRoom, IsSuppliable, front_left, with_supply};
ghost use Rattle.port_rules.specs.Tests.{HasAllPorts};

use crate::core_graph::Core;
use crate::other_end::other_end;
use header_core::Header;
use il_component::Component;
use il_machine::{Home, Port, PortKey, Spot, Why};
use note_queues::Client;
use omx_types::PortId;
use port_rules::{has_no_block, is_accepting, is_leaving};
use port_stock::Stock;
use tunnel_rules::is_supplier;

/// The port as a caller names it.
pub fn port_id<C>(component: &Component<C>, port: Port) -> PortId
    ensures { result ≡ id_of (component_of component.now) port }
{
    PortId {
        handle: component.handle(),
        index: port.key.port,
    }
}

/// Why the port takes no further header, if it doesn't.
fn closed_port<C>(stock: &Stock, component: &Component<C>, port: Port) -> Option<Why>
    requires { IsPort port.key (stocked stock.now) }
    ensures { result ≡ first_of_these ((not (accepting (stocked stock.now).headers (component_of component.now) port), NotAccepting (id_of (component_of component.now) port)) ∷ []) }
{
    if is_accepting(stock, component, port) {
        None
    } else {
        Some(Why::NotAccepting(port_id(component, port)))
    }
}

/// Why the other end of the port's tunnel takes no further header, if it doesn't.
fn closed_peer<C>(stock: &Stock, components: &[Component<C>], port: Port) -> Option<Why>
    requires differ { NumbersDiffer components.now }
    requires kept { (i : ℕ) (e : Entry C) → slice_get components.now i ≡ Some e → HasAllPorts (component_of e) (stocked stock.now) }
    ensures { result ≡ first_of_these (at_end (other_end (components_of components.now) port) (λ e. (not (accepting (stocked stock.now).headers e.component e.port), NotAccepting (id_of e.component e.port)) ∷ [])) }
{
    let end = other_end(components, port)?;
    closed_port(stock, &components[end.place], end.port)
}

/// Why no block of the graph is had for a further header, if none is.
fn shortage(stock: &Stock) -> Option<Why>
    ensures { result ≡ first_of_these ((has_no_block (stocked stock.now).headers, NoBlock) ∷ (nat_eq (stocked stock.now).next 18446744073709551615, NoNumber) ∷ []) }
{
    if has_no_block(stock) {
        Some(Why::NoBlock)
    } else if !stock.numbers_left() {
        Some(Why::NoNumber)
    } else {
        None
    }
}

/// Whether neither list of the port has a header.
pub fn has_none(stock: &Stock, port: Port) -> bool
    requires { IsPort port.key (stocked stock.now) }
    ensures { result ≡ is_empty (in_port (stocked stock.now).headers port) }
{
    !stock.has_todo(port.key) && !stock.has_done(port.key)
}

/// Where an end that supplies a tunnel keeps the headers that aren't used: an output in `todo`, an input in `done`.
pub fn supplied_spot(input: bool) -> Spot
    ensures { result ≡ supplied_spot input }
{
    if input {
        Spot::DoneBack
    } else {
        Spot::TodoBack
    }
}

/// Makes a header of a block for the port, which supplies its tunnel, and for the peer.
fn make_for_both(stock: &mut Stock, port: Port, peer: PortKey)
    requires room { HasRoom port peer (stocked stock.old) }
    requires numbers { (stocked stock.old).next < 18446744073709551615 }
    ensures new_number { (stocked stock.old).headers.header (stocked stock.old).next ≡ None }
    ensures stock { stocked stock.new ≡ with_supply port peer (stocked stock.old) }
{
    let header = stock.make_header(
        port.key,
        Some(peer),
        Home::Port(port.key),
        None,
        port.setting.definition.size,
    );
    stock.push_header(
        port.key,
        header,
        supplied_spot(port.setting.definition.input),
    );
}

/// The front of `todo`, or, where that is empty, the front of `done`. It leaves its list.
fn take_front(stock: &mut Stock, key: PortKey) -> Option<Header>
    requires { IsPort key (stocked stock.old) }
    ensures front { option_map number_of result ≡ slice_get ((stocked stock.old).headers.todo key ++ (stocked stock.old).headers.done key) 0 }
    ensures outside { IfSome result (λ header. IsOutside header (stocked stock.new)) }
    ensures stock { stocked stock.new ≡ front_left key (stocked stock.old) }
{
    match stock.pull_todo(key) {
        Some(header) => Some(header),
        None => stock.pull_done(key),
    }
}

impl<C: Client> Core<C> {
    /// Why the port of the component at the place makes no header for its tunnel, if it doesn't.
    pub fn supply_idle(&self, place: usize, index: u32) -> Option<Why>
        requires { IsSomeAnd (component_at place self.now) (λ c. IsSome (port_of c index)) }
        ensures { MatchOption (component_at place self.now) ⊥ (λ c. MatchOption (port_of c index) ⊥ (λ p. result ≡ supply_idle (look_of self.now) c p)) }
    {
        let component = &self.components[place];
        let Some(port) = component.port(index) else {
            unreachable!()
        };
        if !is_supplier(port) {
            return Some(Why::NotSupplier);
        }
        let closed_here = closed_port(&self.stock, component, port);
        if closed_here.is_some() {
            return closed_here;
        }
        let closed_there = closed_peer(&self.stock, &self.components, port);
        if closed_there.is_some() {
            return closed_there;
        }
        shortage(&self.stock)
    }

    /// The port, which supplies its tunnel, makes a header of a block for both ends.
    pub fn supply(&mut self, place: usize, index: u32)
        requires { IsSomeAnd (component_at place self.old) (λ c. IsSomeAnd (port_of c index) (λ p. IsSuppliable (look_of self.old) c p)) }
        ensures change { MatchOption (component_at place self.old) ⊥ (λ c. MatchOption (port_of c index) ⊥ (λ p. StepsBare (kept C.progress self.old) (kept C.progress self.new) (λ w v. v ≡ with_supplied p w))) }
        ensures clients { KeepsAllClients self.old self.new }
    {
        let component = &self.components[place];
        let Some(port) = component.port(index) else {
            unreachable!()
        };
        let Some(link) = port.state.link else {
            unreachable!()
        };
        if !self.stock.numbers_left() {
            unreachable!()
        }
        make_for_both(&mut self.stock, port, link.peer);
    }

    /// Why the port of the component at the place unmakes no header, if it doesn't.
    pub fn release_idle(&self, place: usize, index: u32) -> Option<Why>
        requires { IsSomeAnd (component_at place self.now) (λ c. IsSome (port_of c index)) }
        ensures { MatchOption (component_at place self.now) ⊥ (λ c. MatchOption (port_of c index) ⊥ (λ p. result ≡ release_idle (look_of self.now) c p)) }
    {
        let component = &self.components[place];
        let Some(port) = component.port(index) else {
            unreachable!()
        };
        if !is_supplier(port) {
            Some(Why::NotSupplier)
        } else if !is_leaving(component, port) {
            Some(Why::NotLeaving)
        } else if has_none(&self.stock, port) {
            Some(Why::NoHeader)
        } else {
            None
        }
    }

    /// The port, which supplies its tunnel and is leaving, unmakes the front header of `todo`, or, where that is empty, of `done`.
    pub fn release(&mut self, place: usize, index: u32)
        requires { IsSomeAnd (component_at place self.old) (λ c. IsSomeAnd (port_of c index) (λ p. release_idle (look_of self.old) c p ≡ None)) }
        ensures change { MatchOption (component_at place self.old) ⊥ (λ c. MatchOption (port_of c index) ⊥ (λ p. StepsBare (kept C.progress self.old) (kept C.progress self.new) (λ w v. v ≡ front_unmade (in_port (seen w.headers) p) w))) }
        ensures clients { KeepsAllClients self.old self.new }
    {
        let component = &self.components[place];
        let Some(port) = component.port(index) else {
            unreachable!()
        };
        let Some(header) = take_front(&mut self.stock, port.key) else {
            unreachable!()
        };
        let _memory = self.stock.unmake_header(header);
    }
}
