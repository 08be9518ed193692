//! A component's work goes out.

ghost use Rattle.std.specs.Prelude.{◌≡◌, ◌<◌, None, length, option_map, MatchOption, IsSomeAnd};
ghost use Rattle.il_machine.specs.Headers.{seen};
ghost use Rattle.il_machine.specs.Claims.{carried, claim_idle, must_announce, with_work, work_of};
ghost use Rattle.il_machine.specs.World.{number_of};
ghost use Rattle.stock_laws.specs.Bare.{AlwaysBare, StepsBare};
ghost use Rattle.port_rules.specs.Claiming.{claimed_by};
ghost use Rattle.port_stock.specs.Kept.{stocked};
ghost use Rattle.graph_core.specs.Claiming.{AreFree, AreLent, HasFronts, carried_from};
ghost use Rattle.graph_core.specs.Entries.{kept, look_of, component_at};
ghost use Rattle.graph_core.specs.Clients.{KeepsAllClients};

use crate::core_graph::Core;
use crate::picking::{numbers_of, pick_up};
use note_queues::Client;
use port_rules::{NoWork, must_announce};
use work_landing::Places;

impl<C: Client> Core<C> {
    /// Why the component at the place gives no work, if it doesn't.
    pub fn claim_idle(&self, place: usize) -> Option<NoWork>
        requires { place < length self.now.entries }
        ensures { MatchOption (component_at place self.now) ⊥ (λ c. option_map claimed_by result ≡ claim_idle (look_of self.now) c) }
    {
        let component = &self.components[place];
        port_rules::claim_idle(&self.stock, component)
    }

    /// Whether the work of the component at the place is that of a source that has to tell that its output has another format than its file.
    pub fn must_announce(&self, place: usize) -> bool
        requires { place < length self.now.entries }
        ensures { MatchOption (component_at place self.now) ⊥ (λ c. result ≡ must_announce c) }
    {
        let component = &self.components[place];
        port_rules::must_announce(&self.stock, component)
    }

    /// The work of the component at the place goes out: the front of `todo` of each input that hasn't ended and of each output comes to the
    /// free place of its port. An announcement has no header.
    pub fn claim(&mut self, place: usize, headers: &mut Places)
        requires free { AreFree headers.old }
        requires may { IsSomeAnd (component_at place self.old) (λ c. claim_idle (look_of self.old) c ≡ None) }
        ensures change { MatchOption (component_at place self.old) ⊥ (λ c. StepsBare (kept C.progress self.old) (kept C.progress self.new) (λ w v. v ≡ with_work place c (work_of (seen w.headers) c) w)) }
        ensures carried { MatchOption (component_at place self.old) ⊥ (λ c. AlwaysBare (kept C.progress self.old) (λ w. carried w.headers (work_of (seen w.headers) c).headers ≡ carried_from 0 headers.new)) }
        ensures headers { MatchOption (component_at place self.old) ⊥ (λ c. HasFronts c headers.new (stocked self.old.stock)) }
        ensures lent { MatchOption (component_at place self.old) ⊥ (λ c. AreLent (number_of c) headers.new (look_of self.new)) }
        ensures clients { KeepsAllClients self.old self.new }
    {
        let component = &mut self.components[place];
        let announces = must_announce(&self.stock, component);
        pick_up(&mut self.stock, component, announces, headers);
        component.give_work(numbers_of(headers), announces);
    }
}
