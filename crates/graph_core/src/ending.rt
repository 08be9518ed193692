//! A graph ends: nothing of it is out, so what it still has is unmade.

ghost use Rattle.std.specs.Prelude.{◌≡◌, ◌↔◌, ◌<◌, All, IsSome, [], length, true, false};
ghost use Rattle.std.specs.List.{list_all};
ghost use Rattle.port_stock.specs.Kept.{stocked};
ghost use Rattle.port_stock.specs.Conditions.{AllWait, IsOutside};
ghost use Rattle.graph_core.specs.Entries.{look_of, noticed_in};
ghost use Rattle.graph_core.specs.Ending.{AreOutside, AreSomeOutside, IsAllIn, LeavesOthers, OnHeader, is_in, without_taken};

use crate::core_graph::Core;
use il_component::Component;
use note_queues::{Call, Client, Taken, Took};
use port_stock::Stock;

/// Unmakes the header of a note that was taken, if it has one.
fn end_taken(stock: &mut Stock, taken: Taken)
    requires { OnHeader taken (λ header. IsOutside header (stocked stock.old)) }
    ensures { stocked stock.new ≡ without_taken taken (stocked stock.old) }
{
    match taken {
        Taken::Told(_) => {}
        Taken::EmptyDone(header) | Taken::FillDone(header) => {
            let _memory = stock.unmake_header(header);
        }
    }
}

/// Takes the component's oldest note, unmakes its header, and answers whether there was a note.
fn end_next<C>(stock: &mut Stock, component: &mut Component<C>) -> bool
    requires client { IsSome component.old.queues.client }
    requires held { AreSomeOutside component.old (stocked stock.old) }
    ensures client { IsSome component.new.queues.client }
    ensures others { LeavesOthers component.old (stocked stock.old) component.new (stocked stock.new) }
    ensures fewer { result ≡ true → length component.new.queues.notes < length component.old.queues.notes }
    ensures none { result ≡ false → component.new.queues.notes ≡ [] }
{
    match component.take() {
        Took::Call(call) => {
            let Call { client, taken } = call;
            component.put_client(client);
            end_taken(stock, taken);
            true
        }
        Took::None | Took::Busy => false,
    }
}

/// Takes all notes of the component, and unmakes their headers.
fn end_notes<C>(stock: &mut Stock, component: &mut Component<C>)
    requires client { IsSome component.old.queues.client }
    requires held { AreSomeOutside component.old (stocked stock.old) }
    ensures client { IsSome component.new.queues.client }
    ensures others { LeavesOthers component.old (stocked stock.old) component.new (stocked stock.new) }
    ensures none { component.new.queues.notes ≡ [] }
{
    while end_next(stock, component) {}
}

/// The components are ended one after the other, each with its client object. What is left of the headers waits in lists.
fn end_all<C: Drop>(mut stock: Stock, mut components: Vec<Component<C>>) -> Stock
    requires held { AreOutside (noticed_in components.items) (stocked stock) }
    requires clients { All (λ e. IsSome e.queues.client) components.items }
    ensures { AllWait (stocked result) }
{
    while let Some(mut component) = components.pop() {
        end_notes(&mut stock, &mut component);
        component.close();
    }
    components.destroy_empty();
    stock
}

fn is_in<C>(component: &Component<C>) -> bool
    ensures { result ≡ is_in component.now }
{
    !component.is_client_out() && !component.is_work_out() && component.file().is_none()
}

fn all_in<C>(components: &[Component<C>]) -> bool
    ensures { result ≡ list_all is_in components.now }
{
    components.iter().all(|c| is_in(c))
}

impl<C: Client> Core<C> {
    /// Whether nothing is out: no header is with the client, no client object and no work is out, and no component has a file.
    pub fn is_all_in(&self) -> bool
        ensures { (result ≡ true) ↔ IsAllIn (look_of self.now) }
    {
        if !self.stock.all_inside() {
            return false;
        }
        all_in(&self.components)
    }
}

impl<C: Client + Drop> Core<C> {
    /// Ends all components, ports and headers, with the client objects.
    pub fn close(self)
        requires { IsAllIn (look_of self) }
    {
        let Core {
            registry: _,
            components,
            stock,
            book: _,
            marked: _,
        } = self;
        end_all(stock, components).close();
    }
}
