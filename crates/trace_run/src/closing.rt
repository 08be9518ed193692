//! The end of a trace: everything goes back, by acts that aren't printed.

ghost use Rattle.std.specs.Prelude.{◌≡◌, ◌<◌, [], IsTrue, IsFalse};
ghost use Rattle.il_machine.specs.States.{is_invalid};
ghost use Rattle.il_graph.specs.Shown.{look_of};
ghost use Rattle.trace_run.specs.Standing.{graph_kept, HasNamesFor};
ghost use Rattle.trace_run.specs.Desks.{on_desk};
ghost use Rattle.trace_run.specs.Works.{HasDeskFor, BringAllBack, HasDeskMoment};
ghost use Rattle.trace_run.specs.Closing.{KeepMoments, StayEnded, IsEnded, IsMadeInvalid, IsFreeable, IsFreed, CanFree, IsOver, is_note, notes_left};

use crate::client::TraceGraph;
use crate::desk::Desk;
use crate::names::NamedComponent;
use crate::notes::take;
use crate::reply::LineAnswer;
use crate::slots::Slot;
use crate::works::{TraceWork, bring_back};
use act_text::TextReply;
use omx_types::{Command, Handle, State};

impl Desk {
    /// Brings each work back, takes the notes, makes each component Invalid, takes the notes again, frees the headers, and gives the
    /// graph back. None of these acts is refused.
    pub fn give_back(self) -> TraceGraph
        requires { HasDeskMoment (on_desk self) }
        ensures { IsOver (look_of result) }
    {
        let Desk {
            mut graph,
            components,
            mut slots,
            works,
        } = self;
        bring_all_back(&mut graph, works);
        for entry in &components {
            end_component(&mut graph, &mut slots, entry.handle);
        }
        free_slots(&mut graph, slots);
        graph
    }
}

/// Runs and brings back each work that is held.
fn bring_all_back(graph: &mut TraceGraph, works: Vec<TraceWork>)
    requires { HasDeskFor (graph_kept graph.old) works.items }
    ensures { BringAllBack (graph_kept graph.old) works.items (graph_kept graph.new) [] }
{
    let mut rest = works;
    while let Some(work) = rest.pop() {
        bring_back(graph, work);
    }
    rest.destroy_empty();
}

/// Takes the notes, makes the component Invalid, and takes the notes again.
fn end_component(graph: &mut TraceGraph, slots: &mut Vec<Slot>, h: Handle)
    requires { HasNamesFor (graph_kept graph.old) slots.old.items }
    ensures stood { KeepMoments (graph_kept graph.old) slots.old.items (graph_kept graph.new) slots.new.items }
    ensures stay { StayEnded (look_of graph.old) (look_of graph.new) }
    ensures ended { IsEnded h (look_of graph.new) }
{
    take_notes(graph, slots, h);
    make_invalid(graph, h);
    take_notes(graph, slots, h);
}

fn take_notes(graph: &mut TraceGraph, slots: &mut Vec<Slot>, h: Handle)
    requires { HasNamesFor (graph_kept graph.old) slots.old.items }
    ensures stood { KeepMoments (graph_kept graph.old) slots.old.items (graph_kept graph.new) slots.new.items }
    ensures stay { StayEnded (look_of graph.old) (look_of graph.new) }
    ensures none { notes_left h (look_of graph.new) ≡ 0 }
{
    while take_next(graph, slots, h) {}
}

/// Takes the oldest note, and answers whether there was one.
fn take_next(graph: &mut TraceGraph, slots: &mut Vec<Slot>, h: Handle) -> bool
    requires { HasNamesFor (graph_kept graph.old) slots.old.items }
    ensures stood { KeepMoments (graph_kept graph.old) slots.old.items (graph_kept graph.new) slots.new.items }
    ensures stay { StayEnded (look_of graph.old) (look_of graph.new) }
    ensures fewer { IsTrue result → notes_left h (look_of graph.new) < notes_left h (look_of graph.old) }
    ensures none { IsFalse result → notes_left h (look_of graph.new) ≡ 0 }
{
    is_note(take(graph, slots, h))
}

fn is_note(answer: LineAnswer) -> bool
    ensures { result ≡ is_note answer }
{
    match answer {
        LineAnswer::Plain(TextReply::Event(_)) => true,
        LineAnswer::Plain(_) => false,
        LineAnswer::Emptied { place: _ } => true,
        LineAnswer::Filled { place: _ } => true,
    }
}

/// Sends StateSet(Invalid) to the component, unless it is Invalid already or was freed. With no note queued there is room for it.
fn make_invalid(graph: &mut TraceGraph, h: Handle)
    requires { notes_left h (look_of graph.old) ≡ 0 }
    ensures { IsMadeInvalid h (graph_kept graph.old) (graph_kept graph.new) }
{
    graph.law_of_worlds();
    let Ok(state) = graph.get_state(h) else {
        return;
    };
    if is_invalid(state) {
        return;
    }
    let Ok(()) = graph.send_command(h, Command::StateSet(State::Invalid)) else {
        unreachable!()
    };
}

fn is_invalid(state: State) -> bool
    ensures { result ≡ is_invalid state }
{
    matches!(state, State::Invalid)
}

/// Frees the headers that the client has.
fn free_slots(graph: &mut TraceGraph, slots: Vec<Slot>)
    requires { CanFree (graph_kept graph.old) slots.items }
    ensures { IsOver (look_of graph.new) }
{
    let mut rest = slots;
    while let Some(slot) = rest.pop() {
        free_slot(graph, slot);
    }
    rest.destroy_empty();
}

/// Unmakes the header that the client has. Its component is Invalid, so there is no event that would want room.
fn free_slot(graph: &mut TraceGraph, slot: Slot)
    requires { IsFreeable slot (look_of graph.old) }
    ensures { IsFreed slot (graph_kept graph.old) (graph_kept graph.new) }
{
    let Slot {
        name: _,
        number: _,
        port,
        hand,
    } = slot;
    let Some(header) = hand else {
        return;
    };
    graph.law_of_worlds();
    match graph.free_buffer(port.handle, port.index, header) {
        Ok(_memory) => {}
        Err((_error, _header)) => unreachable!(),
    }
}
