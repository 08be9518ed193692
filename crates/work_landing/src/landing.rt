//! One header of a work comes back.
ghost use Rattle.std.specs.Prelude.{◌≡◌, ◌+◌, ◌*◌, ◌<◌, ◌≤◌, not, ◌&&◌, ◌||◌, [], length};
ghost use Rattle.il_machine.specs.Census.{note_numbers};
ghost use Rattle.il_machine.specs.Kinds.{ports_in};
ghost use Rattle.il_machine.specs.Room.{room};
ghost use Rattle.port_stock.specs.Kept.{stocked};
ghost use Rattle.port_stock.specs.Conditions.{IsMadeFor, IsOutside, IsPort};
ghost use Rattle.il_component.specs.Entries.{component_of};
ghost use Rattle.work_landing.specs.Returning.{GetsNotes, is_own_of, landing_by, mark_by, noted_by, noticed_by, notes_by, put_by, settled, told_by};

use crate::back::Back;
use header_core::Header;
use il_component::Component;
use il_machine::{Mark, Owner, PortKey, Spot};
use omx_types::{Event, Handle};
use port_stock::Stock;

/// Whether the component is the mark's target.
pub(crate) fn is_own(component: Handle, mark: Mark) -> bool
    ensures { result ≡ is_own_of component mark }
{
    mark.target == component
}

fn mark_after(component: Handle, own: Option<Mark>, mark: Option<Mark>) -> Option<Mark>
    ensures { result ≡ mark_by component own mark }
{
    match own {
        Some(own) if !is_own(component, own) => Some(own),
        _ => mark,
    }
}

/// Clears a header that was spent or returned, and puts the mark that is carried on into one that was filled.
fn settle(header: &mut Header, back: Back, component: Handle, mark: Option<Mark>)
    ensures { header.new ≡ settled component mark back header.old }
{
    let is_spent = if back.input {
        back.finished
    } else {
        back.failed
    };
    if back.returning || is_spent {
        header.clear();
    } else if back.finished {
        let mark = mark_after(component, header.mark(), mark);
        header.set_mark(mark);
    }
}

/// Tells a header's own mark, where it is finished.
fn tell_mark<C>(component: &mut Component<C>, header: &Header, back: Back, handle: Handle)
    requires { 0 < room (component_of component.old) }
    ensures { GetsNotes component.old component.new (told_by handle back header.now.held.mark) [] }
{
    let may_tell = back.finished && (back.input || !back.returning);
    if let Some(mark) = header.mark() {
        if may_tell && is_own(handle, mark) {
            component.queue_event(Event::Mark(mark.value));
        }
    }
}

/// Whether the header goes to the client.
fn is_noted(back: Back) -> bool
    ensures { result ≡ (not back.joined && (back.finished || back.returning)) }
{
    !back.joined && (back.finished || back.returning)
}

/// Whether the header goes on through its tunnel.
fn is_onward(back: Back) -> bool
    ensures { result ≡ (back.finished && not back.returning) }
{
    back.finished && !back.returning
}

/// Puts a header to where it lands.
fn land<C>(
    stock: &mut Stock,
    component: &mut Component<C>,
    port: PortKey,
    header: Header,
    back: Back,
)
    requires port { IsPort port (stocked stock.old) }
    requires outside { IsOutside header (stocked stock.old) }
    requires made_for { IsMadeFor port header (stocked stock.old) }
    requires places { length (note_numbers (component_of component.old).notes) + length (note_numbers (noted_by (landing_by back) back.input header)) ≤ 32 * ports_in component.old.settings.kind }
    ensures stock { stocked stock.new ≡ put_by (landing_by back) port header (stocked stock.old) }
    ensures notes { GetsNotes component.old component.new (noted_by (landing_by back) back.input header) (noticed_by (landing_by back) header) }
{
    if is_noted(back) {
        stock.give_header(header.id(), Owner::Notice(port.component));
        component.put_header(back.input, header);
    } else if is_onward(back) {
        stock.push_header(port, header, Spot::DoneBack);
    } else {
        stock.push_header(port, header, Spot::TodoFront);
    }
}

/// Brings a header back: its own mark is told, then it lands with what it carries then.
pub(crate) fn bring_back<C>(
    stock: &mut Stock,
    component: &mut Component<C>,
    port: PortKey,
    mut header: Header,
    back: Back,
    handle: Handle,
    mark: Option<Mark>,
)
    requires port { IsPort port (stocked stock.old) }
    requires outside { IsOutside header (stocked stock.old) }
    requires made_for { IsMadeFor port header (stocked stock.old) }
    requires room { 0 < room (component_of component.old) }
    requires places { length (note_numbers (component_of component.old).notes) + length (note_numbers (notes_by handle mark back header)) ≤ 32 * ports_in component.old.settings.kind }
    ensures stock { stocked stock.new ≡ put_by (landing_by back) port (settled handle mark back header) (stocked stock.old) }
    ensures notes { GetsNotes component.old component.new (notes_by handle mark back header) (noticed_by (landing_by back) (settled handle mark back header)) }
{
    tell_mark(component, &header, back, handle);
    settle(&mut header, back, handle, mark);
    land(stock, component, port, header, back);
}
