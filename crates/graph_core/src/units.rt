//! Units are granted to the first that waits for them, and taken from the weakest that holds some. A book has who holds and who waits.

ghost use Rattle.std.specs.Prelude.{◌≡◌, ◌<◌, ◌≤◌, length, slice_get, Some, None, true, MatchOption, option_and_then, IfSome, [], ◌∷◌};
ghost use Rattle.il_machine.specs.Units.{first_waiter, victim, grant_idle, preempt_idle, granted_units, preempted_units, with_changed, lacks_event_room};
ghost use Rattle.il_machine.specs.Lists.{first_of_these};
ghost use Rattle.il_component.specs.Entries.{component_of};
ghost use Rattle.resource_book.specs.Book.{has_room};
ghost use Rattle.resource_book.specs.Rows.{units_held, with_row};
ghost use Rattle.stock_laws.specs.Bare.{StepsBare};
ghost use Rattle.graph_core.specs.Booked.{held_for, row_for, wait_for};
ghost use Rattle.graph_core.specs.Entries.{kept, components_of, look_of};
ghost use Rattle.graph_core.specs.Clients.{KeepsAllClients};

use crate::core_graph::Core;
use crate::other_end::place_numbered;
use il_component::Component;
use il_machine::Why;
use note_queues::Client;
use omx_types::Handle;
use resource_book::{Book, Held, Row, Wait};

/// The units that the component holds, if it holds them.
fn held_for<C>(component: &Component<C>) -> Option<Held>
    ensures { result ≡ held_for (component_of component.now) }
{
    if !component.holds_units() {
        return None;
    }
    Some(Held {
        units: component.need(),
        returning: component.is_giving_back(),
    })
}

/// The component's wait for units, if it waits.
fn wait_for<C>(component: &Component<C>) -> Option<Wait>
    ensures { result ≡ wait_for (component_of component.now) }
{
    if !component.is_waiter() {
        return None;
    }
    Some(Wait {
        need: component.need(),
        number: component.waiting().unwrap_or(0),
    })
}

/// What the book has of the component.
fn row_for<C>(component: &Component<C>) -> Row
    ensures { result ≡ row_for (component_of component.now) }
{
    Row {
        component: component.handle().generation,
        priority: component.priority(),
        held: held_for(component),
        wait: wait_for(component),
    }
}

/// The book has what the component holds and waits for by now.
pub fn enter<C>(book: &mut Book, component: &Component<C>)
    requires room { has_room component.now.handle.generation book.old ≡ true }
    requires covered { units_held (with_row (row_for (component_of component.now)) book.old.rows) ≤ book.old.units }
    ensures { book.new ≡ record book.old { rows = with_row (row_for (component_of component.now)) book.old.rows } }
{
    book.put(row_for(component));
}

/// Whether the component has no room for two events.
fn lacks_event_room<C>(component: &Component<C>) -> Option<Why>
    ensures { result ≡ first_of_these (lacks_event_room (component_of component.now) ∷ []) }
{
    let room = component.room();
    if room < 2 {
        return Some(Why::Events { room, need: 2 });
    }
    None
}

impl<C: Client> Core<C> {
    /// The place of the first that waits for units.
    fn first_waiter(&self) -> Option<usize>
        ensures waiter { option_and_then (slice_get (components_of self.now.entries)) result ≡ first_waiter (components_of self.now.entries) }
        ensures within { IfSome result (λ i. i < length self.now.entries) }
    {
        let number = self.book.first_waiter()?;
        place_numbered(&self.components, number)
    }

    /// Why no units are granted, if none are.
    pub fn grant_idle(&self) -> Option<Why>
        ensures { result ≡ grant_idle (look_of self.now) }
    {
        let Some(place) = self.first_waiter() else {
            return Some(Why::NoWaiter);
        };
        let waiter = &self.components[place];
        let (have, need) = (self.book.free(), waiter.need());
        if have < need {
            return Some(Why::Short { have, need });
        }
        lacks_event_room(waiter)
    }

    /// The first that waits gets its units, and is the one that is answered.
    pub fn grant(&mut self) -> Handle
        requires { grant_idle (look_of self.old) ≡ None }
        ensures change { MatchOption (first_waiter (components_of self.old.entries)) ⊥ (λ c. (result ≡ c.handle) × StepsBare (kept C.progress self.old) (kept C.progress self.new) (λ w v. v ≡ with_changed granted_units c w)) }
        ensures clients { KeepsAllClients self.old self.new }
    {
        let Some(place) = self.first_waiter() else {
            unreachable!()
        };
        let component = &mut self.components[place];
        component.grant();
        enter(&mut self.book, component);
        self.marked.insert(place);
        component.handle()
    }

    /// The place of the one that gives its units to the first that waits.
    fn victim(&self) -> Option<usize>
        ensures victim { option_and_then (slice_get (components_of self.now.entries)) result ≡ victim (components_of self.now.entries) }
        ensures within { IfSome result (λ i. i < length self.now.entries) }
    {
        let number = self.book.victim()?;
        place_numbered(&self.components, number)
    }

    /// Why no units are taken, if none are.
    pub fn preempt_idle(&self) -> Option<Why>
        ensures { result ≡ preempt_idle (look_of self.now) }
    {
        let Some(waiter) = self.first_waiter() else {
            return Some(Why::NoWaiter);
        };
        let (have, need) = (self.book.coming(), self.components[waiter].need());
        if need <= have {
            return Some(Why::Enough { have, need });
        }
        match self.victim() {
            Some(place) => lacks_event_room(&self.components[place]),
            None => Some(Why::NoVictim),
        }
    }

    /// The victim loses its units, at once or once it is Idle, and is the one that is answered.
    pub fn preempt(&mut self) -> Handle
        requires { preempt_idle (look_of self.old) ≡ None }
        ensures change { MatchOption (victim (components_of self.old.entries)) ⊥ (λ c. (result ≡ c.handle) × StepsBare (kept C.progress self.old) (kept C.progress self.new) (λ w v. v ≡ with_changed preempted_units c w)) }
        ensures clients { KeepsAllClients self.old self.new }
    {
        let Some(place) = self.victim() else {
            unreachable!()
        };
        let component = &mut self.components[place];
        component.preempt();
        enter(&mut self.book, component);
        self.marked.insert(place);
        component.handle()
    }
}
