//! Notes are given to the client, and headers come back to it.

ghost use Rattle.std.specs.Prelude.{◌≡◌, ◌<◌, length, true, None, Some, MatchOption, IsSomeAnd};
ghost use Rattle.il_machine.specs.World.{port_of, with_component};
ghost use Rattle.il_machine.specs.Components.{progress_of};
ghost use Rattle.il_machine.specs.Notes.{back_in};
ghost use Rattle.il_machine.specs.Flow.{handed_back};
ghost use Rattle.stock_laws.specs.Bare.{StepsBare, StepsBareWhere};
ghost use Rattle.graph_core.specs.Entries.{kept, client_of, component_at};
ghost use Rattle.graph_core.specs.Changes.{OnNoNote, Takes};
ghost use Rattle.graph_core.specs.Clients.{IsPortDone, KeepsClients, KeepsAllClients, TakesClient};

use crate::core_graph::Core;
use il_machine::Owner;
use note_queues::{Client, Taken, Took};

impl<C: Client> Core<C> {
    /// Takes the oldest note of the component at the place out, with its client object. A header in it is the client's from then on.
    pub fn take_note(&mut self, place: usize) -> Took<C>
        requires { place < length self.old.entries }
        ensures change { MatchOption (component_at place self.old) ⊥ (λ c. StepsBare (kept C.progress self.old) (kept C.progress self.new) (λ w v. Takes w place c result v)) }
        ensures unchanged { OnNoNote result (self.new ≡ self.old) }
        ensures client { MatchOption (component_at place self.old) ⊥ (λ c. TakesClient c.handle self.old result self.new) }
        ensures clients { MatchOption (component_at place self.old) ⊥ (λ c. KeepsClients c.handle self.old self.new) }
    {
        let component = &mut self.components[place];
        let took = component.take();
        if let Took::Call(call) = &took {
            match &call.taken {
                Taken::EmptyDone(header) | Taken::FillDone(header) => {
                    self.stock.give_header(header.id(), Owner::Client);
                }
                Taken::Told(_) => {}
            }
        }
        took
    }

    /// Puts the client object of the component at the place back. It was out, and was told all that was given for the component.
    pub fn put_client(&mut self, place: usize, client: C)
        requires told { IsPortDone (C.progress client).port }
        requires out { IsSomeAnd (component_at place self.old) (λ c. c.client_out ≡ true) }
        ensures change { MatchOption (component_at place self.old) ⊥ (λ c. StepsBareWhere (kept C.progress self.old) (kept C.progress self.new) (λ w. C.progress client ≡ progress_of c w) (λ w v. v ≡ with_component place (back_in c) w)) }
        ensures client { MatchOption (component_at place self.old) ⊥ (λ c. client_of c.handle self.new ≡ Some client) }
        ensures clients { MatchOption (component_at place self.old) ⊥ (λ c. KeepsClients c.handle self.old self.new) }
        ensures stock { self.new.stock ≡ self.old.stock }
    {
        let component = &mut self.components[place];
        component.put_client(client);
    }

    /// The front of todo of a client port is cleared and queued as a note. Nothing happens where todo is empty.
    pub fn give_notice(&mut self, place: usize, index: u32)
        requires { IsSomeAnd (component_at place self.old) (λ c. IsSomeAnd (port_of c index) (λ p. p.state.link ≡ None)) }
        ensures change { MatchOption (component_at place self.old) ⊥ (λ c. MatchOption (port_of c index) ⊥ (λ p. StepsBare (kept C.progress self.old) (kept C.progress self.new) (λ w v. v ≡ handed_back place c p None w))) }
        ensures clients { KeepsAllClients self.old self.new }
    {
        let component = &mut self.components[place];
        let Some(port) = component.port(index) else {
            unreachable!()
        };
        let Some(mut header) = self.stock.pull_todo(port.key) else {
            return;
        };
        header.clear();
        self.stock
            .give_header(header.id(), Owner::Notice(port.key.component));
        component.put_header(port.setting.definition.input, header);
    }
}
