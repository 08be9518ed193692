//! Components by the names of their lines: from a name to a handle or a port, and back.

ghost use Rattle.std.specs.Prelude.{◌≡◌};
ghost use Rattle.trace_run.specs.Naming.{found_handle, handle_in, port_in, component_name, port_name};

use act_text::{Name, PortName};
use omx_types::{Handle, PortId};

/// A component that was made, with the name of its line.
#[derive(Clone, Copy)]
pub struct NamedComponent {
    pub name: Name,
    pub handle: Handle,
}

/// The handle of the component of a name, where one was made.
fn found_handle(components: &[NamedComponent], name: &Name) -> Option<Handle>
    ensures { result ≡ found_handle components.now name.now }
{
    let found = components
        .iter()
        .find(|entry| entry.name.as_bytes() == name.as_bytes());
    match found {
        Some(entry) => Some(entry.handle),
        None => None,
    }
}

/// The handle that a name stands for: none where its component wasn't made.
pub fn handle_of(components: &[NamedComponent], name: &Name) -> Handle
    ensures { result ≡ handle_in components.now name.now }
{
    match found_handle(components, name) {
        Some(handle) => handle,
        None => Handle::none(),
    }
}

/// The port by its component's handle.
pub fn port_id(components: &[NamedComponent], port: &PortName) -> PortId
    ensures { result ≡ port_in components.now port.now }
{
    PortId {
        handle: handle_of(components, &port.component),
        index: port.index,
    }
}

/// The name of the component of a number.
pub fn component_name(components: &[NamedComponent], number: u64) -> Option<Name>
    ensures { result ≡ component_name components.now number }
{
    let found = components
        .iter()
        .find(|entry| entry.handle.generation == number);
    match found {
        Some(entry) => Some(entry.name),
        None => None,
    }
}

/// The port by its component's name, where the trace has one for it.
pub fn port_name(components: &[NamedComponent], port: PortId) -> Option<PortName>
    ensures { result ≡ port_name components.now port }
{
    match component_name(components, port.handle.generation) {
        Some(component) => Some(PortName {
            component,
            index: port.index,
        }),
        None => None,
    }
}
