//! Headers of client ports: they are made, unmade, and handed in.

ghost use Rattle.std.specs.Prelude.{◌≡◌, ◌<◌, None, is_some, length, true, MatchOption, IsSomeAnd, IsSome};
ghost use Rattle.il_machine.specs.World.{port_of, with_component};
ghost use Rattle.il_machine.specs.Headers.{is_for, loaded};
ghost use Rattle.il_machine.specs.Buffers.{allocate_refusal, use_refusal, free_buffer_refusal, empty_refusal, fill_refusal, client_header, with_header, with_todo, without_header, unpopulated, load_in, AtState, IsWithClient};
ghost use Rattle.stock_laws.specs.Bare.{StepsBare};
ghost use Rattle.header_core.specs.BufferHeader.{is_clients, own_memory, fresh as fresh_header};
ghost use Rattle.graph_core.specs.Entries.{kept, look_of, component_at};
ghost use Rattle.graph_core.specs.Changes.{IsHandedIn, IsMakable};
ghost use Rattle.graph_core.specs.Clients.{KeepsAllClients};

use crate::core_graph::Core;
use header_core::{Header, Memory};
use il_machine::{Home, Spot};
use note_queues::Client;
use omx_types::OmxError;
use port_rules::{
    allocate_refusal, empty_refusal, fill_refusal, free_buffer_refusal, unpopulate, use_refusal,
};

impl<C: Client> Core<C> {
    /// Why no buffer is allocated for the port of the component at the place.
    pub fn allocate_refusal(&self, place: usize, index: u32) -> Option<OmxError>
        requires { place < length self.now.entries }
        ensures { MatchOption (component_at place self.now) ⊥ (λ c. result ≡ allocate_refusal (look_of self.now) c (port_of c index)) }
    {
        let component = &self.components[place];
        allocate_refusal(&self.stock, component, index)
    }

    /// Why the client's memory of so many bytes isn't taken for the port.
    pub fn use_refusal(&self, place: usize, index: u32, bytes: usize) -> Option<OmxError>
        requires { place < length self.now.entries }
        ensures { MatchOption (component_at place self.now) ⊥ (λ c. result ≡ use_refusal (look_of self.now) c (port_of c index) bytes) }
    {
        let component = &self.components[place];
        use_refusal(&self.stock, component, index, bytes)
    }

    /// Why the header of the number, which the client has, isn't unmade.
    pub fn free_buffer_refusal(&self, place: usize, index: u32, number: u64) -> Option<OmxError>
        requires place { place < length self.now.entries }
        requires header { IsWithClient number (look_of self.now) }
        ensures { MatchOption (component_at place self.now) ⊥ (λ c. AtState number (look_of self.now) (λ s. result ≡ free_buffer_refusal c (port_of c index) s)) }
    {
        let component = &self.components[place];
        let Some(state) = self.stock.state(number) else {
            unreachable!()
        };
        free_buffer_refusal(component, index, state)
    }

    /// Why the header isn't taken in by the input port.
    pub fn empty_refusal(&self, place: usize, index: u32, header: &Header) -> Option<OmxError>
        requires place { place < length self.now.entries }
        requires header { IsHandedIn header.now (look_of self.now) }
        ensures { MatchOption (component_at place self.now) ⊥ (λ c. AtState header.now.held.number (look_of self.now) (λ s. result ≡ empty_refusal c (port_of c index) s header.now.held.content)) }
    {
        let component = &self.components[place];
        let Some(state) = self.stock.state(header.id()) else {
            unreachable!()
        };
        empty_refusal(component, index, state, header)
    }

    /// Why the header isn't taken in by the output port.
    pub fn fill_refusal(&self, place: usize, index: u32, header: &Header) -> Option<OmxError>
        requires place { place < length self.now.entries }
        requires header { IsHandedIn header.now (look_of self.now) }
        ensures { MatchOption (component_at place self.now) ⊥ (λ c. AtState header.now.held.number (look_of self.now) (λ s. result ≡ fill_refusal c (port_of c index) s)) }
    {
        let component = &self.components[place];
        let Some(state) = self.stock.state(header.id()) else {
            unreachable!()
        };
        fill_refusal(component, index, state)
    }

    /// Makes a header for the port, of the client's memory, or of a block where there is none.
    pub fn make_header(&mut self, place: usize, index: u32, memory: Option<Memory>) -> Header
        requires { IsSomeAnd (component_at place self.old) (λ c. IsSomeAnd (port_of c index) (λ p. IsMakable (look_of self.old) c p memory)) }
        ensures header { MatchOption (component_at place self.old) ⊥ (λ c. MatchOption (port_of c index) ⊥ (λ p. result ≡ fresh_header (look_of self.old).key (look_of self.old).made result.store p.setting.definition.size)) }
        ensures memory { own_memory result.store ≡ memory }
        ensures change { MatchOption (component_at place self.old) ⊥ (λ c. MatchOption (port_of c index) ⊥ (λ p. StepsBare (kept C.progress self.old) (kept C.progress self.new) (λ w v. v ≡ with_header (client_header w.made p (is_some memory)) memory w))) }
        ensures clients { KeepsAllClients self.old self.new }
    {
        let component = &self.components[place];
        let Some(port) = component.port(index) else {
            unreachable!()
        };
        if !self.stock.numbers_left() {
            unreachable!()
        }
        self.stock.make_header(
            port.key,
            None,
            Home::Client,
            memory,
            port.setting.definition.size,
        )
    }

    /// Unmakes the header of the port, and gives the client's memory back. The component tells where it needs the header.
    pub fn free_buffer(&mut self, place: usize, index: u32, header: Header) -> Option<Memory>
        requires handed { IsHandedIn header (look_of self.old) }
        requires free { IsSomeAnd (component_at place self.old) (λ c. AtState header.held.number (look_of self.old) (λ s. free_buffer_refusal c (port_of c index) s ≡ None)) }
        ensures memory { result ≡ header.held.memory }
        ensures own { is_some result ≡ is_clients header.store }
        ensures change { MatchOption (component_at place self.old) ⊥ (λ c. MatchOption (port_of c index) ⊥ (λ p. StepsBare (kept C.progress self.old) (kept C.progress self.new) (λ w v. v ≡ without_header header.held.number (with_component place (unpopulated p c) w)))) }
        ensures clients { KeepsAllClients self.old self.new }
    {
        let component = &mut self.components[place];
        let Some(port) = component.port(index) else {
            unreachable!()
        };
        unpopulate(component, port);
        self.stock.unmake_header(header)
    }

    /// The header goes to the back of the port's todo, with what it carries.
    pub fn take_in(&mut self, place: usize, index: u32, header: Header)
        requires handed { IsHandedIn header (look_of self.old) }
        requires made_for { IsSomeAnd (component_at place self.old) (λ c. IsSomeAnd (port_of c index) (λ p. AtState header.held.number (look_of self.old) (λ s. is_for p.key s ≡ true))) }
        ensures change { MatchOption (component_at place self.old) ⊥ (λ c. MatchOption (port_of c index) ⊥ (λ p. StepsBare (kept C.progress self.old) (kept C.progress self.new) (λ w v. v ≡ with_todo p.key header.held.number (loaded (load_in header.held)) w))) }
        ensures clients { KeepsAllClients self.old self.new }
    {
        let component = &self.components[place];
        let Some(port) = component.port(index) else {
            unreachable!()
        };
        self.stock.push_header(port.key, header, Spot::TodoBack);
    }
}
