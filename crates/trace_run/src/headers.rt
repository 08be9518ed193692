//! The lines that make a component or a header, and those that hand a header in.

ghost use Rattle.std.specs.Prelude.{◌≡◌, List, IsUtf8, Some, Err, IfOk, OnErr};
ghost use Rattle.omx_types.specs.declared.error.CallError.TheVariants.{Omx};
ghost use Rattle.il_machine.specs.World.{World};
ghost use Rattle.il_machine.specs.Components.{GetHandle};
ghost use Rattle.script_lang.specs.declared.form.TraceForm.TheVariants as forms;
ghost use Rattle.trace_run.specs.declared.slots.Slot.{Slot as HeaderSlot};
ghost use Rattle.trace_run.specs.Replying.{Plain};
ghost use Rattle.trace_run.specs.Standing.{parts, HasMoment, Leads};

use crate::OutOfMemory;
use crate::client::TraceGraph;
use crate::names::{NamedComponent, port_id};
use crate::slots::{Slot, new_slot, put_hand, take_named};
use act_text::{Name, PortName, TextReply};
use note_queues::HolderClient;
use omx_types::{CallError, OmxError};
use std::alloc::{AllocError, Global};
use std::str;

/// The error of a component's name that is no text.
fn no_such_kind(kind: &[u8]) -> OmxError
    requires { ¬ (IsUtf8 kind.now) }
    ensures { (w : World) → GetHandle w kind.now (Err (Omx result)) w }
{
    if kind.is_empty() || kind.len() > 127 {
        OmxError::InvalidComponentName
    } else {
        OmxError::ComponentNotFound
    }
}

/// Makes a component under the name.
pub fn get(
    graph: &mut TraceGraph,
    components: &mut Vec<NamedComponent>,
    alloc: Global,
    name: &Name,
    kind: &[u8],
) -> Result<TextReply, OutOfMemory>
    ensures leads { IfOk result (λ reply. (slots : List HeaderSlot) → Leads (parts graph.old components.old.items slots) (parts graph.new components.new.items slots) (forms.Get name.now kind.now) (Plain reply)) }
    ensures unchanged { OnErr result ((slots : List HeaderSlot) → parts graph.new components.new.items slots ≡ parts graph.old components.old.items slots) }
{
    components.reserve(1)?;
    let Ok(kind_name) = str::from_utf8(kind) else {
        return Ok(TextReply::Error(no_such_kind(kind)));
    };
    match graph.get_handle(alloc, kind_name, HolderClient::new()) {
        Ok(handle) => {
            components.push_reserved(NamedComponent {
                name: *name,
                handle,
            });
            Ok(TextReply::Done)
        }
        Err((CallError::Omx(error), _client)) => Ok(TextReply::Error(error)),
        Err((CallError::OutOfMemory, _client)) => Err(AllocError),
    }
}

/// Makes a header of the port, and keeps it under the name.
pub fn allocate(
    graph: &mut TraceGraph,
    components: &[NamedComponent],
    slots: &mut Vec<Slot>,
    name: &Name,
    port: &PortName,
) -> Result<TextReply, OutOfMemory>
    ensures leads { IfOk result (λ reply. Leads (parts graph.old components.now slots.old.items) (parts graph.new components.now slots.new.items) (forms.Alloc name.now port.now) (Plain reply)) }
    ensures unchanged { OnErr result (parts graph.new components.now slots.new.items ≡ parts graph.old components.now slots.old.items) }
{
    let port = port_id(components, port);
    slots.reserve(1)?;
    match graph.allocate_buffer(port.handle, port.index) {
        Ok(header) => {
            slots.push_reserved(new_slot(*name, port, header));
            Ok(TextReply::Done)
        }
        Err(CallError::Omx(error)) => Ok(TextReply::Error(error)),
        Err(CallError::OutOfMemory) => unreachable!(),
    }
}

/// Makes a header over so many zero bytes.
pub fn use_bytes(
    graph: &mut TraceGraph,
    components: &[NamedComponent],
    slots: &mut Vec<Slot>,
    alloc: Global,
    name: &Name,
    port: &PortName,
    length: u32,
) -> Result<TextReply, OutOfMemory>
    ensures leads { IfOk result (λ reply. Leads (parts graph.old components.now slots.old.items) (parts graph.new components.now slots.new.items) (forms.UseBuf name.now port.now length) (Plain reply)) }
    ensures unchanged { OnErr result (parts graph.new components.now slots.new.items ≡ parts graph.old components.now slots.old.items) }
{
    let port = port_id(components, port);
    slots.reserve(1)?;
    let bytes = vec![in alloc; 0u8; length as usize]?;
    match graph.use_buffer(port.handle, port.index, bytes) {
        Ok(header) => {
            slots.push_reserved(new_slot(*name, port, header));
            Ok(TextReply::Done)
        }
        Err((error, _bytes)) => Ok(TextReply::Error(error)),
    }
}

/// Unmakes the header of that name at the port.
pub fn free(
    graph: &mut TraceGraph,
    components: &[NamedComponent],
    slots: &mut Vec<Slot>,
    name: &Name,
    port: &PortName,
) -> TextReply
    requires { HasMoment (parts graph.old components.now slots.old.items) }
    ensures { Leads (parts graph.old components.now slots.old.items) (parts graph.new components.now slots.new.items) (forms.FreeBuf name.now port.now) (Plain result) }
{
    let port = port_id(components, port);
    let Some((place, header)) = take_named(slots, name) else {
        return TextReply::NotHeld;
    };
    match graph.free_buffer(port.handle, port.index, header) {
        Ok(_memory) => TextReply::Done,
        Err((error, header)) => {
            put_hand(slots, place, header);
            TextReply::Error(error)
        }
    }
}

/// Gives the header the bytes and the flag, and hands it in to be emptied.
pub fn empty(
    graph: &mut TraceGraph,
    components: &[NamedComponent],
    slots: &mut Vec<Slot>,
    name: &Name,
    port: &PortName,
    bytes: &[u8],
    eos: bool,
) -> TextReply
    requires { HasMoment (parts graph.old components.now slots.old.items) }
    ensures { Leads (parts graph.old components.now slots.old.items) (parts graph.new components.now slots.new.items) (forms.Etb name.now port.now bytes.now eos) (Plain result) }
{
    let port = port_id(components, port);
    let Some((place, mut header)) = take_named(slots, name) else {
        return TextReply::NotHeld;
    };
    let Ok(()) = header.fill(bytes, u32::from(eos)) else {
        put_hand(slots, place, header);
        return TextReply::TooLong;
    };
    match graph.empty_this_buffer(port.handle, port.index, header) {
        Ok(()) => TextReply::Done,
        Err((error, header)) => {
            put_hand(slots, place, header);
            TextReply::Error(error)
        }
    }
}

/// Hands a header in to be filled.
pub fn fill(
    graph: &mut TraceGraph,
    components: &[NamedComponent],
    slots: &mut Vec<Slot>,
    name: &Name,
    port: &PortName,
) -> TextReply
    requires { HasMoment (parts graph.old components.now slots.old.items) }
    ensures { Leads (parts graph.old components.now slots.old.items) (parts graph.new components.now slots.new.items) (forms.Ftb name.now port.now) (Plain result) }
{
    let port = port_id(components, port);
    let Some((place, header)) = take_named(slots, name) else {
        return TextReply::NotHeld;
    };
    // read for the fact that it tells: the content, which is handed in, is within the size
    let _size = header.size();
    match graph.fill_this_buffer(port.handle, port.index, header) {
        Ok(()) => TextReply::Done,
        Err((error, header)) => {
            put_hand(slots, place, header);
            TextReply::Error(error)
        }
    }
}
