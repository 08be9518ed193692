//! Headers are handed over to the other end of a tunnel, and back to the end that supplies it or to the client.

ghost use Rattle.std.specs.Prelude.{◌≡◌, not, ◌&&◌, ◌||◌, [], ◌∷◌, IsSome, IsSomeAnd, MatchOption};
ghost use Rattle.il_machine.specs.Headers.{seen, unchanged};
ghost use Rattle.il_machine.specs.Lists.{first_of_these, is_empty};
ghost use Rattle.il_machine.specs.Look.{Look};
ghost use Rattle.il_machine.specs.Ports.{id_of, is_input_port};
ghost use Rattle.il_machine.specs.World.{port_of};
ghost use Rattle.il_machine.specs.Buffers.{is_taking};
ghost use Rattle.il_machine.specs.Flow.{at_end, back_idle, front_put, handed_back, handed_over, is_giving, other_end, over_idle, returned};
ghost use Rattle.stock_laws.specs.Bare.{StepsBare};
ghost use Rattle.il_machine.specs.declared.answer.Why.TheVariants as why;
ghost use Rattle.il_machine.specs.declared.header.Spot.TheVariants.{TodoBack};
ghost use Rattle.il_component.specs.Entries.{component_of};
ghost use Rattle.port_stock.specs.Kept.{stocked};
ghost use Rattle.port_stock.specs.Conditions.{IsPort};
ghost use Rattle.graph_core.specs.Entries.{components_of, kept, look_of, component_at};
ghost use Rattle.graph_core.specs.Clients.{KeepsAllClients};
ghost use Rattle.graph_core.specs.Moving.{AreShared, Moves};
ghost use Rattle.graph_core.specs.OtherEnd.{NumbersDiffer};

use crate::core_graph::Core;
use crate::other_end::other_end;
use crate::supplying::{has_none, port_id, supplied_spot};
use il_component::Component;
use il_machine::{Port, PortKey, Spot, Why};
use note_queues::Client;
use port_rules::{is_open, is_returning, is_taking};
use port_stock::Stock;
use tunnel_rules::is_supplier;

/// Whether the port has no header to hand back: an unused one only goes back where the port returns.
fn lacks_header(stock: &Stock, port: Port, returning: bool) -> bool
    requires { IsPort port.key (stocked stock.now) }
    ensures { result ≡ (is_empty ((stocked stock.now).headers.done port.key) && (not returning || is_empty ((stocked stock.now).headers.todo port.key))) }
{
    if returning {
        has_none(stock, port)
    } else {
        !stock.has_done(port.key)
    }
}

/// Why the port hands no header back.
fn back_idle<C>(stock: &Stock, component: &Component<C>, port: Port) -> Option<Why>
    requires { IsPort port.key (stocked stock.now) }
    ensures { (l : Look) → l.headers ≡ (stocked stock.now).headers → result ≡ back_idle l (component_of component.now) port }
{
    let returning = is_returning(component, port);
    if is_supplier(port) {
        Some(Why::IsSupplier)
    } else if !returning && !state_rules::is_executing(component.state()) {
        Some(Why::NotRunning(port_id(component, port)))
    } else if lacks_header(stock, port, returning) {
        Some(Why::NoHeader)
    } else {
        None
    }
}

/// Whether the component sends over the port.
fn is_giving<C>(component: &Component<C>, port: Port) -> bool
    ensures { result ≡ is_giving (component_of component.now) port }
{
    is_open(port) && state_rules::is_executing(component.state()) && component.pending().is_none()
}

/// Why the other end of the port's tunnel takes no header, if it doesn't.
fn peer_idle<C>(components: &[Component<C>], port: Port) -> Option<Why>
    requires { NumbersDiffer components.now }
    ensures { result ≡ first_of_these (at_end (other_end (components_of components.now) port) (λ e. (not (is_taking e.component e.port), why.NotRunning (id_of e.component e.port)) ∷ [])) }
{
    let end = other_end(components, port)?;
    let component = &components[end.place];
    if is_taking(component, end.port) {
        None
    } else {
        Some(Why::NotRunning(port_id(component, end.port)))
    }
}

/// Why the port of the component, which is one of these, hands no header over.
fn over_idle<C>(
    stock: &Stock,
    components: &[Component<C>],
    component: &Component<C>,
    port: Port,
) -> Option<Why>
    requires port { IsPort port.key (stocked stock.now) }
    requires differ { NumbersDiffer components.now }
    ensures { (l : Look) → l.headers ≡ (stocked stock.now).headers → l.components ≡ components_of components.now → result ≡ over_idle l (component_of component.now) port }
{
    if !is_supplier(port) {
        return Some(Why::NotSupplier);
    }
    if !is_giving(component, port) {
        return Some(Why::NotRunning(port_id(component, port)));
    }
    let idle = peer_idle(components, port);
    if idle.is_some() {
        return idle;
    }
    if stock.has_done(port.key) {
        None
    } else {
        Some(Why::NoHeader)
    }
}

/// The front of `done` goes to the back of the other end's `todo`.
fn pass_on(stock: &mut Stock, key: PortKey, peer: PortKey)
    requires port { IsPort key (stocked stock.old) }
    requires peer { IsPort peer (stocked stock.old) }
    requires shared { AreShared key peer (stocked stock.old) }
    ensures { Moves (λ w. front_put peer TodoBack unchanged ((seen w.headers).done key) w) (stocked stock.old) (stocked stock.new) }
{
    stock.pass_done(key, peer, Spot::TodoBack);
}

/// The front of `done` goes to the back of the supplier's `todo`. Where `done` is empty the front of `todo` goes back, cleared.
fn give_back(stock: &mut Stock, port: Port, supplier: PortKey)
    requires port { IsPort port.key (stocked stock.old) }
    requires supplier { IsPort supplier (stocked stock.old) }
    requires shared { AreShared port.key supplier (stocked stock.old) }
    ensures { Moves (λ w. returned supplier (is_input_port port) ((seen w.headers).done port.key) ((seen w.headers).todo port.key) w) (stocked stock.old) (stocked stock.new) }
{
    if stock.pass_done(port.key, supplier, Spot::TodoBack) {
        return;
    }
    let Some(mut header) = stock.pull_todo(port.key) else {
        return;
    };
    header.clear();
    stock.push_header(
        supplier,
        header,
        supplied_spot(!port.setting.definition.input),
    );
}

impl<C: Client> Core<C> {
    /// Why the port of the component at the place hands no header back.
    pub fn back_idle(&self, place: usize, index: u32) -> Option<Why>
        requires { IsSomeAnd (component_at place self.now) (λ c. IsSome (port_of c index)) }
        ensures { MatchOption (component_at place self.now) ⊥ (λ c. MatchOption (port_of c index) ⊥ (λ p. result ≡ back_idle (look_of self.now) c p)) }
    {
        let component = &self.components[place];
        let Some(port) = component.port(index) else {
            unreachable!()
        };
        back_idle(&self.stock, component, port)
    }

    /// Why the port of the component at the place hands no header over.
    pub fn over_idle(&self, place: usize, index: u32) -> Option<Why>
        requires { IsSomeAnd (component_at place self.now) (λ c. IsSome (port_of c index)) }
        ensures { MatchOption (component_at place self.now) ⊥ (λ c. MatchOption (port_of c index) ⊥ (λ p. result ≡ over_idle (look_of self.now) c p)) }
    {
        let component = &self.components[place];
        let Some(port) = component.port(index) else {
            unreachable!()
        };
        over_idle(&self.stock, &self.components, component, port)
    }

    /// The port of the component at the place hands a header back, to the end that supplies its tunnel or in a note. Nothing happens
    /// where it has none.
    pub fn hand_back(&mut self, place: usize, index: u32)
        requires { IsSomeAnd (component_at place self.old) (λ c. IsSome (port_of c index)) }
        ensures change { MatchOption (component_at place self.old) ⊥ (λ c. MatchOption (port_of c index) ⊥ (λ p. StepsBare (kept C.progress self.old) (kept C.progress self.new) (λ w v. v ≡ handed_back place c p p.state.link w))) }
        ensures clients { KeepsAllClients self.old self.new }
    {
        let component = &self.components[place];
        let Some(port) = component.port(index) else {
            unreachable!()
        };
        let Some(link) = port.state.link else {
            self.give_notice(place, index);
            return;
        };
        give_back(&mut self.stock, port, link.peer);
    }

    /// The front of `done` of the port of the component at the place goes to the other end's `todo`. Nothing happens where the port
    /// isn't joined, or `done` is empty.
    pub fn hand_over(&mut self, place: usize, index: u32)
        requires { IsSomeAnd (component_at place self.old) (λ c. IsSome (port_of c index)) }
        ensures change { MatchOption (component_at place self.old) ⊥ (λ c. MatchOption (port_of c index) ⊥ (λ p. StepsBare (kept C.progress self.old) (kept C.progress self.new) (λ w v. v ≡ handed_over p w))) }
        ensures clients { KeepsAllClients self.old self.new }
    {
        let component = &self.components[place];
        let Some(port) = component.port(index) else {
            unreachable!()
        };
        let Some(link) = port.state.link else {
            return;
        };
        pass_on(&mut self.stock, port.key, link.peer);
    }
}
