//! Why calls on buffers are refused: what a port takes in, and what its component loses with a header.

ghost use Rattle.std.specs.Prelude.{◌≡◌, ◌≤◌, ◌<◌, ◌&&◌, ◌||◌, nat_eq, true};
ghost use Rattle.omx_types.specs.Formats.{frame_bytes_of};
ghost use Rattle.il_machine.specs.World.{port_of};
ghost use Rattle.il_machine.specs.Headers.{is_for};
ghost use Rattle.il_machine.specs.Sound.{IsSound};
ghost use Rattle.il_machine.specs.Ports.{is_joined};
ghost use Rattle.il_machine.specs.Room.{room};
ghost use Rattle.il_machine.specs.Buffers.{allocate_refusal, use_refusal, free_buffer_refusal, empty_refusal, fill_refusal, unpopulated, is_unpopulating, is_taking, is_whole_frames, is_bad_length, has_no_block};
ghost use Rattle.il_component.specs.Entries.{component_of, KeepsNotices};
ghost use Rattle.port_stock.specs.Kept.{stocked};
ghost use Rattle.port_rules.specs.Tests.{HasAllPorts};
ghost use Rattle.port_rules.specs.Looking.{look_of_stock};

use crate::terms::{is_accepting, is_going_to, is_joined, is_open};
use header_core::Header;
use il_component::Component;
use il_machine::{HeaderState, Port};
use omx_types::{BLOCK_BYTES, BLOCKS, Event, OmxError, State};
use port_stock::{Stock, is_made_for};

const MOST_BLOCKS: u64 = BLOCKS as u64;

const MOST_BYTES: usize = BLOCK_BYTES as usize;

/// Whether the port loses a header that it needs.
fn is_unpopulating<C>(component: &Component<C>, port: Port) -> bool
    ensures { result ≡ is_unpopulating (component_of component.now) port }
{
    port.state.enabled
        && state_rules::is_up(component.state())
        && !is_going_to(component, State::Loaded)
}

/// Whether the component works, and the port is open.
pub fn is_taking<C>(component: &Component<C>, port: Port) -> bool
    ensures { result ≡ is_taking (component_of component.now) port }
{
    state_rules::is_running(component.state()) && component.pending().is_none() && is_open(port)
}

/// Whether the header's content is of whole frames.
fn has_whole_frames(port: Port, header: &Header) -> bool
    requires some { 1 ≤ frame_bytes_of port.setting.definition.format }
    requires few { frame_bytes_of port.setting.definition.format ≤ 4096 }
    ensures { result ≡ is_whole_frames port.setting.definition.format header.now.held.content }
{
    let frame = port.setting.definition.format.frame_bytes();
    header.content().len() % frame as usize == 0
}

/// Whether the header was made for the port, and its content is of whole frames.
fn is_content_for(port: Port, state: HeaderState, header: &Header) -> bool
    requires some { 1 ≤ frame_bytes_of port.setting.definition.format }
    requires few { frame_bytes_of port.setting.definition.format ≤ 4096 }
    ensures { result ≡ (is_for port.key state && is_whole_frames port.setting.definition.format header.now.held.content) }
{
    is_made_for(port.key, &state) && has_whole_frames(port, header)
}

/// Whether the component has no room to tell that the port loses a header.
fn lacks_room<C>(component: &Component<C>, port: Port) -> bool
    ensures { result ≡ (is_unpopulating (component_of component.now) port && nat_eq (room (component_of component.now)) 0) }
{
    is_unpopulating(component, port) && component.room() == 0
}

/// Whether all blocks are out.
pub fn has_no_block(stock: &Stock) -> bool
    ensures { result ≡ has_no_block (stocked stock.now).headers }
{
    stock.blocks() >= MOST_BLOCKS
}

/// Whether no block or no number is left for a header.
fn lacks_block(stock: &Stock) -> bool
    ensures { result ≡ (has_no_block (stocked stock.now).headers || nat_eq (stocked stock.now).next 18446744073709551615) }
{
    has_no_block(stock) || !stock.numbers_left()
}

/// Whether memory of so many bytes isn't the port's to take.
fn is_bad_memory(bytes: usize, port: Port) -> bool
    ensures { result ≡ (is_joined port || is_bad_length bytes port) }
{
    is_joined(port) || bytes < port.setting.definition.size as usize || bytes > MOST_BYTES
}

/// The component tells that the port loses a header that it needs.
pub fn unpopulate<C>(component: &mut Component<C>, port: Port)
    requires { is_unpopulating (component_of component.old) port ≡ true → 0 < room (component_of component.old) }
    ensures component { component_of component.new ≡ unpopulated port (component_of component.old) }
    ensures kept { KeepsNotices component.old component.new }
{
    if is_unpopulating(component, port) {
        component.queue_event(Event::Error(OmxError::PortUnpopulated));
    }
}

/// Why no buffer is allocated for the port.
pub fn allocate_refusal<C>(stock: &Stock, component: &Component<C>, index: u32) -> Option<OmxError>
    requires { HasAllPorts (component_of component.now) (stocked stock.now) }
    ensures { result ≡ allocate_refusal (look_of_stock (stocked stock.now)) (component_of component.now) (port_of (component_of component.now) index) }
{
    if component.is_invalid() {
        return Some(OmxError::InvalidState);
    }
    let Some(port) = component.port(index) else {
        return Some(OmxError::BadPortIndex);
    };
    if is_joined(port) {
        Some(OmxError::BadParameter)
    } else if !is_accepting(stock, component, port) {
        Some(OmxError::IncorrectStateOperation)
    } else if lacks_block(stock) {
        Some(OmxError::InsufficientResources)
    } else {
        None
    }
}

/// Why the client's memory of so many bytes isn't taken for the port.
pub fn use_refusal<C>(
    stock: &Stock,
    component: &Component<C>,
    index: u32,
    bytes: usize,
) -> Option<OmxError>
    requires { HasAllPorts (component_of component.now) (stocked stock.now) }
    ensures { result ≡ use_refusal (look_of_stock (stocked stock.now)) (component_of component.now) (port_of (component_of component.now) index) bytes }
{
    if component.is_invalid() {
        return Some(OmxError::InvalidState);
    }
    let Some(port) = component.port(index) else {
        return Some(OmxError::BadPortIndex);
    };
    if is_bad_memory(bytes, port) {
        Some(OmxError::BadParameter)
    } else if !is_accepting(stock, component, port) {
        Some(OmxError::IncorrectStateOperation)
    } else if !stock.numbers_left() {
        Some(OmxError::InsufficientResources)
    } else {
        None
    }
}

/// Why the header of this state isn't unmade.
pub fn free_buffer_refusal<C>(
    component: &Component<C>,
    index: u32,
    state: HeaderState,
) -> Option<OmxError>
    ensures { result ≡ free_buffer_refusal (component_of component.now) (port_of (component_of component.now) index) state }
{
    let Some(port) = component.port(index) else {
        return Some(OmxError::BadPortIndex);
    };
    if !is_made_for(port.key, &state) {
        Some(OmxError::BadParameter)
    } else if lacks_room(component, port) {
        Some(OmxError::NotReady)
    } else {
        None
    }
}

/// Why the header of this state isn't taken in by the input port.
pub fn empty_refusal<C>(
    component: &Component<C>,
    index: u32,
    state: HeaderState,
    header: &Header,
) -> Option<OmxError>
    requires { IsSound (component_of component.now) }
    ensures { result ≡ empty_refusal (component_of component.now) (port_of (component_of component.now) index) state header.now.held.content }
{
    if component.is_invalid() {
        return Some(OmxError::InvalidState);
    }
    let Some(port) = component.port(index) else {
        return Some(OmxError::BadPortIndex);
    };
    if !port.setting.definition.input {
        Some(OmxError::BadPortIndex)
    } else if !is_content_for(port, state, header) {
        Some(OmxError::BadParameter)
    } else if !is_taking(component, port) {
        Some(OmxError::IncorrectStateOperation)
    } else {
        None
    }
}

/// Why the header of this state isn't taken in by the output port.
pub fn fill_refusal<C>(component: &Component<C>, index: u32, state: HeaderState) -> Option<OmxError>
    ensures { result ≡ fill_refusal (component_of component.now) (port_of (component_of component.now) index) state }
{
    if component.is_invalid() {
        return Some(OmxError::InvalidState);
    }
    let Some(port) = component.port(index) else {
        return Some(OmxError::BadPortIndex);
    };
    if port.setting.definition.input {
        Some(OmxError::BadPortIndex)
    } else if !is_made_for(port.key, &state) {
        Some(OmxError::BadParameter)
    } else if !is_taking(component, port) {
        Some(OmxError::IncorrectStateOperation)
    } else {
        None
    }
}
