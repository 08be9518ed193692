//! A note is taken, and the client object goes back at once.

ghost use Rattle.std.specs.Prelude.{◌≡◌, List, Some, position};
ghost use Rattle.il_machine.specs.Components.{noted_by};
ghost use Rattle.il_machine.specs.Notes.{EndNote};
ghost use Rattle.il_machine.specs.Whole.{StepsWhere};
ghost use Rattle.il_graph.specs.Shown.{look_of};
ghost use Rattle.graph_core.specs.Clients.{IsOut, IsPortDone, WasTold};
ghost use Rattle.trace_run.specs.declared.names.NamedComponent.{NamedComponent as Named};
ghost use Rattle.trace_run.specs.Standing.{parts, graph_kept, slot_numbered, machine_note, Rehanded, HasEmptySlot, HasSlotFor, KeptSo, HasNamesFor, TakeLeads};

use crate::client::TraceGraph;
use crate::reply::LineAnswer;
use crate::slots::{Slot, place_numbered, put_hand};
use act_text::TextReply;
use header_core::Header;
use note_queues::{Call, Client, HolderClient, Taken, Took};
use omx_types::Handle;

/// Takes the oldest note.
pub fn take(graph: &mut TraceGraph, slots: &mut Vec<Slot>, h: Handle) -> LineAnswer
    requires { HasNamesFor (graph_kept graph.old) slots.old.items }
    ensures { (components : List Named) → TakeLeads (parts graph.old components slots.old.items) (parts graph.new components slots.new.items) h result }
{
    graph.law_of_worlds();
    match graph.take_note(h) {
        Ok(Took::Call(call)) => end(graph, slots, h, call),
        Ok(Took::None) => LineAnswer::Plain(TextReply::NoNote),
        Ok(Took::Busy) => LineAnswer::Plain(TextReply::Busy),
        Err(error) => LineAnswer::Plain(TextReply::Error(error)),
    }
}

/// Gives the client object back, told what the note tells, and keeps the header of the note.
fn end(
    graph: &mut TraceGraph,
    slots: &mut Vec<Slot>,
    h: Handle,
    call: Call<HolderClient>,
) -> LineAnswer
    requires out { IsOut h (look_of graph.old) }
    requires slot { HasSlotFor slots.old.items call.taken }
    requires told { IsPortDone call.client.port }
    ensures step { StepsWhere (graph_kept graph.old) (graph_kept graph.new) (WasTold h (noted_by (machine_note call.taken) call.client)) (λ w v. EndNote w h v) }
    ensures kept { KeptSo call.taken slots.old.items slots.new.items result }
{
    let Call { client, taken } = call;
    let client = told_of(client, &taken);
    graph.end_note(h, client);
    match taken {
        Taken::Told(event) => LineAnswer::Plain(TextReply::Event(event)),
        Taken::EmptyDone(header) => LineAnswer::Emptied {
            place: keep(slots, header),
        },
        Taken::FillDone(header) => LineAnswer::Filled {
            place: keep(slots, header),
        },
    }
}

/// The client object, told the event of the note, if it is one.
fn told_of(client: HolderClient, taken: &Taken) -> HolderClient
    ensures { result ≡ noted_by (machine_note taken.now) client }
{
    let mut told = client;
    match taken {
        Taken::Told(event) => told.hear(*event),
        Taken::EmptyDone(_) => {}
        Taken::FillDone(_) => {}
    }
    told
}

/// Puts a header that came back into its slot, and answers the place.
fn keep(slots: &mut Vec<Slot>, header: Header) -> usize
    requires { HasEmptySlot header.held.number slots.old.items }
    ensures place { position (slot_numbered header.held.number) slots.old.items ≡ Some result }
    ensures slots { Rehanded result (Some header) slots.old.items slots.new.items }
{
    let Some(place) = place_numbered(slots.as_slice(), header.id()) else {
        unreachable!()
    };
    put_hand(slots, place, header);
    place
}
