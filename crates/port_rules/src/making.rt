//! Why a value of a component isn't set, and why a component isn't freed.

ghost use Rattle.std.specs.Prelude.{◌≡◌};
ghost use Rattle.il_machine.specs.Components.{free_refusal};
ghost use Rattle.il_machine.specs.Parameters.{is_fixed, is_wrong_time, set_parameter_refusal};
ghost use Rattle.il_component.specs.Entries.{component_of};
ghost use Rattle.port_stock.specs.Kept.{stocked};
ghost use Rattle.port_stock.specs.Conditions.{IsPort};
ghost use Rattle.port_rules.specs.Tests.{HasAllPorts};

use crate::terms::{PortTest, each_port, is_joined, is_unmade};
use il_component::Component;
use il_machine::Port;
use omx_types::{OmxError, Param, ParamKey, State};
use port_stock::Stock;

/// Whether the port is joined, or has headers, or is enabled while its component isn't Loaded with nothing pending.
pub fn is_fixed<C>(stock: &Stock, component: &Component<C>, port: Port) -> bool
    requires { IsPort port.key (stocked stock.now) }
    ensures { result ≡ is_fixed (stocked stock.now).headers (component_of component.now) port }
{
    is_joined(port) || !is_unmade(stock, port) || (port.state.enabled && !component.is_settable())
}

/// Whether the value of the key can't be set now, though it can at another time.
fn is_wrong_time<C>(stock: &Stock, component: &Component<C>, key: ParamKey) -> bool
    requires { HasAllPorts (component_of component.now) (stocked stock.now) }
    ensures { result ≡ is_wrong_time (stocked stock.now).headers (component_of component.now) key }
{
    if key.index == 3 {
        return !component.is_settable();
    }
    let Some(port) = component.port(key.port) else {
        return false;
    };
    is_fixed(stock, component, port)
}

/// Why a parameter of the component isn't set.
pub fn set_parameter_refusal<C>(
    stock: &Stock,
    component: &Component<C>,
    key: ParamKey,
    value: Param,
) -> Option<OmxError>
    requires { HasAllPorts (component_of component.now) (stocked stock.now) }
    ensures { result ≡ set_parameter_refusal (stocked stock.now).headers (component_of component.now) key value }
{
    if component.is_invalid() {
        return Some(OmxError::InvalidState);
    }
    let fault = component.settings_refusal(key, false, value);
    if fault.is_some() {
        return fault;
    }
    if is_wrong_time(stock, component, key) {
        Some(OmxError::IncorrectStateOperation)
    } else {
        None
    }
}

/// Why the component isn't freed.
pub fn free_refusal<C>(stock: &Stock, component: &Component<C>) -> Option<OmxError>
    requires { HasAllPorts (component_of component.now) (stocked stock.now) }
    ensures { result ≡ free_refusal (stocked stock.now).headers (component_of component.now) }
{
    let in_use = !matches!(component.state(), State::Loaded | State::Invalid)
        || component.pending().is_some()
        || !each_port(stock, component, PortTest::Unmade)
        || component.is_joined()
        || component.is_work_out()
        || component.is_client_out();
    if in_use {
        Some(OmxError::IncorrectStateOperation)
    } else {
        None
    }
}
