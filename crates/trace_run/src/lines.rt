//! One line of a trace: its acts, and its answer.

ghost use Rattle.std.specs.Prelude.{◌≡◌, IfOk, OnOk, OnErr};
ghost use Rattle.script_lang.specs.declared.form.TraceForm.TheVariants as forms;
ghost use Rattle.trace_run.specs.Standing.{parts, HasMoment, Leads, LeadsTo, NamesHeader, TakesHeader};
ghost use Rattle.trace_run.specs.Desks.{on_desk, desk_of};
ghost use Rattle.trace_run.specs.Works.{HasDeskMoment, LeadsAllTo};
ghost use Rattle.trace_run.specs.Replying.{Plain};
ghost use Rattle.trace_run.specs.Writing.{PrintsLine, IsCutAt};

use crate::OutOfMemory;
use crate::asking::ask;
use crate::client::TraceGraph;
use crate::desk::Desk;
use crate::headers::{allocate, empty, fill, free, get, use_bytes};
use crate::names::{NamedComponent, handle_of};
use crate::notes::take;
use crate::printing::{put_end, put_head};
use crate::reply::LineAnswer;
use crate::slots::Slot;
use crate::works::{TraceWork, claim, finish};
use act_text::{TextAct, TextReply};
use script_lang::{TraceForm, TraceLine};
use std::alloc::Global;

/// Makes the acts of a line, and appends its text.
pub fn put_line(
    desk: &mut Desk,
    alloc: Global,
    number: u64,
    line: &TraceLine,
    text: &mut Vec<u8>,
) -> Result<(), OutOfMemory>
    requires { HasDeskMoment (on_desk desk.old) }
    ensures prints { OnOk result (PrintsLine
        (on_desk desk.old)
        (on_desk desk.new)
        number line.now text.old.items text.new.items) }
    ensures cut { OnErr result (IsCutAt (on_desk desk.old) (on_desk desk.new) line.now) }
    ensures stood { HasDeskMoment (on_desk desk.new) }
{
    put_head(number, line.text.as_bytes(), text)?;
    match answer(desk, alloc, &line.form) {
        Ok(answer) => put_end(answer, desk, text),
        Err(error) => Err(error),
    }
}

/// Makes the acts of a line.
fn answer(desk: &mut Desk, alloc: Global, form: &TraceForm) -> Result<LineAnswer, OutOfMemory>
    requires { HasDeskMoment (on_desk desk.old) }
    ensures leads { IfOk result (LeadsAllTo (on_desk desk.old) (on_desk desk.new) form.now) }
    ensures unchanged { OnErr result (on_desk desk.new ≡ on_desk desk.old) }
{
    match form {
        TraceForm::Act(act) => act_answer(
            &mut desk.graph,
            desk.components.as_slice(),
            &mut desk.slots,
            &mut desk.works,
            act,
        ),
        TraceForm::Get { component, kind } => Ok(LineAnswer::Plain(get(
            &mut desk.graph,
            &mut desk.components,
            alloc,
            component,
            kind.as_bytes(),
        )?)),
        _ => header_answer(
            &mut desk.graph,
            desk.components.as_slice(),
            &mut desk.slots,
            alloc,
            form,
        ),
    }
}

/// Makes the acts of a line that names no header and no kind.
fn act_answer(
    graph: &mut TraceGraph,
    components: &[NamedComponent],
    slots: &mut Vec<Slot>,
    works: &mut Vec<TraceWork>,
    act: &TextAct,
) -> Result<LineAnswer, OutOfMemory>
    requires { HasDeskMoment (desk_of graph.old components.now slots.old.items works.old.items) }
    ensures leads { IfOk result (LeadsAllTo (desk_of graph.old components.now slots.old.items works.old.items) (desk_of graph.new components.now slots.new.items works.new.items) (forms.Act act.now)) }
    ensures unchanged { OnErr result (desk_of graph.new components.now slots.new.items works.new.items ≡ desk_of graph.old components.now slots.old.items works.old.items) }
{
    match act {
        TextAct::Take(component) => Ok(take(graph, slots, handle_of(components, component))),
        TextAct::Claim(component) => {
            let reply = claim(graph, works, handle_of(components, component))?;
            Ok(LineAnswer::Plain(reply))
        }
        TextAct::Finish(component) => {
            let reply = finish(graph, works, handle_of(components, component));
            Ok(LineAnswer::Plain(reply))
        }
        TextAct::End(_) => Ok(LineAnswer::Plain(TextReply::NotOut)),
        _ => Ok(LineAnswer::Plain(ask(graph, components, act))),
    }
}

/// Makes the act of a line that names a header.
fn header_answer(
    graph: &mut TraceGraph,
    components: &[NamedComponent],
    slots: &mut Vec<Slot>,
    alloc: Global,
    form: &TraceForm,
) -> Result<LineAnswer, OutOfMemory>
    requires form { NamesHeader form.now }
    requires stood { HasMoment (parts graph.old components.now slots.old.items) }
    ensures leads { IfOk result (LeadsTo (parts graph.old components.now slots.old.items) (parts graph.new components.now slots.new.items) form.now) }
    ensures unchanged { OnErr result (parts graph.new components.now slots.new.items ≡ parts graph.old components.now slots.old.items) }
{
    match form {
        TraceForm::Alloc { header, port } => {
            let reply = allocate(graph, components, slots, header, port)?;
            Ok(LineAnswer::Plain(reply))
        }
        TraceForm::UseBuf {
            header,
            port,
            length,
        } => {
            let reply = use_bytes(graph, components, slots, alloc, header, port, *length)?;
            Ok(LineAnswer::Plain(reply))
        }
        TraceForm::FreeBuf { .. } | TraceForm::Etb { .. } | TraceForm::Ftb { .. } => {
            let reply = hand_reply(graph, components, slots, form);
            Ok(LineAnswer::Plain(reply))
        }
        _ => unreachable!(),
    }
}

/// Makes the act of a line that takes a header out of the client's hand.
fn hand_reply(
    graph: &mut TraceGraph,
    components: &[NamedComponent],
    slots: &mut Vec<Slot>,
    form: &TraceForm,
) -> TextReply
    requires form { TakesHeader form.now }
    requires stood { HasMoment (parts graph.old components.now slots.old.items) }
    ensures { Leads (parts graph.old components.now slots.old.items) (parts graph.new components.now slots.new.items) form.now (Plain result) }
{
    match form {
        TraceForm::FreeBuf { header, port } => free(graph, components, slots, header, port),
        TraceForm::Etb {
            header,
            port,
            bytes,
            eos,
        } => {
            let bytes = bytes.as_bytes();
            empty(graph, components, slots, header, port, bytes, *eos)
        }
        TraceForm::Ftb { header, port } => fill(graph, components, slots, header, port),
        _ => unreachable!(),
    }
}
