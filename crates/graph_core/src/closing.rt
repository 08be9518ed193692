//! While something is due, the first due thing happens.

ghost use Rattle.std.specs.Prelude.{◌≡◌, ◌<◌, ℕ, length, slice_get, position, option_map, None, Some, IfSome};
ghost use Rattle.il_machine.specs.Due.{has_due, first_due, Happens, ClosesTo};
ghost use Rattle.stock_laws.specs.Bare.{StepsBare};
ghost use Rattle.machine_laws.specs.Pending.{pending_in};
ghost use Rattle.il_component.specs.Entries.{Entry, component_of};
ghost use Rattle.port_stock.specs.Kept.{stocked};
ghost use Rattle.port_rules.specs.Tests.{HasAllPorts};
ghost use Rattle.graph_core.specs.Entries.{components_of, look_of, kept};
ghost use Rattle.graph_core.specs.Clients.{KeepsAllClients};
ghost use Rattle.graph_core.specs.Closing.{IsDueAt};
ghost use Rattle.graph_core.specs.Marking.{AreMarked};

use crate::core_graph::Core;
use crate::units::enter;
use bit_set::BitSet;
use il_component::Component;
use note_queues::Client;
use port_rules::{Due, due_in, happen_in};
use port_stock::Stock;

/// The place of the first component that has something due, and what is due first there. Only the marked ones are asked, and one at which
/// nothing is pending loses its mark.
fn first_due_of<C>(
    stock: &Stock,
    components: &[Component<C>],
    marked: &mut BitSet,
) -> Option<(usize, Due)>
    requires ports { (i : ℕ) (e : Entry C) → slice_get components.now i ≡ Some e → HasAllPorts (component_of e) (stocked stock.now) }
    requires marks { AreMarked components.now marked.old }
    ensures place { option_map (λ first. first.0) result ≡ position (has_due (stocked stock.now).headers) (components_of components.now) }
    ensures due { IfSome result (λ first. IsDueAt (stocked stock.now).headers components.now first.0 first.1) }
    ensures within { IfSome result (λ first. first.0 < length components.now) }
    ensures marks { AreMarked components.now marked.new }
{
    let mut from = 0;
    while let Some(place) = marked.next(from) {
        let component = &components[place];
        if component.is_calm() {
            marked.remove(place);
        } else if let Some(due) = due_in(stock, component) {
            return Some((place, due));
        }
        from = place + 1;
    }
    None
}

impl<C: Client> Core<C> {
    /// The place of the first component that has something due, and what is due first there.
    fn first_due(&mut self) -> Option<(usize, Due)>
        ensures place { option_map (λ first. first.0) result ≡ first_due (look_of self.old) }
        ensures due { IfSome result (λ first. IsDueAt (look_of self.old).headers self.old.entries first.0 first.1) }
        ensures within { IfSome result (λ first. first.0 < length self.old.entries) }
        ensures unchanged { self.new ≡ self.old }
    {
        first_due_of(&self.stock, &self.components, &mut self.marked)
    }

    /// What is due first at the component of the place happens.
    fn happen(&mut self, place: usize, due: Due)
        requires first { first_due (look_of self.old) ≡ Some place }
        requires due { IsDueAt (look_of self.old).headers self.old.entries place due }
        requires within { place < length self.old.entries }
        ensures happens { StepsBare (kept C.progress self.old) (kept C.progress self.new) Happens }
        ensures fewer { pending_in (components_of self.new.entries) < pending_in (components_of self.old.entries) }
        ensures clients { KeepsAllClients self.old self.new }
    {
        let component = &mut self.components[place];
        let waits = happen_in(&mut self.stock, component, due, self.book.numbered());
        self.book.count_waits(waits);
        enter(&mut self.book, component);
    }

    /// While something is due, the first due thing happens.
    pub fn close_out(&mut self)
        ensures closes { StepsBare (kept C.progress self.old) (kept C.progress self.new) ClosesTo }
        ensures settled { first_due (look_of self.new) ≡ None }
        ensures clients { KeepsAllClients self.old self.new }
    {
        while let Some((place, due)) = self.first_due() {
            self.happen(place, due);
        }
    }
}
