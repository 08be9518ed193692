//! Two ports of a tunnel: why they aren't joined or parted, and what setting each has of the other.

ghost use Rattle.std.specs.Prelude.{◌≡◌};
ghost use Rattle.il_machine.specs.World.{port_of, same_handle};
ghost use Rattle.il_machine.specs.Tunnels.{widened, setup_refusal, drop_refusal, are_output_and_input, is_joined_with};
ghost use Rattle.il_component.specs.Entries.{component_of};
ghost use Rattle.port_stock.specs.Kept.{stocked};
ghost use Rattle.port_stock.specs.Conditions.{IsPort};
ghost use Rattle.port_rules.specs.Joining.{ports_refusal};
ghost use Rattle.port_rules.specs.Tests.{HasAllPorts};

use crate::making::is_fixed;
use crate::terms::is_unmade;
use il_component::Component;
use il_machine::{Port, PortSetting};
use omx_types::{Handle, OmxError};
use port_stock::Stock;

fn same_handle(a: Handle, b: Handle) -> bool
    ensures { result ≡ same_handle a b }
{
    a == b
}

fn are_output_and_input(output: Port, input: Port) -> bool
    ensures { result ≡ are_output_and_input output input }
{
    !output.setting.definition.input && input.setting.definition.input
}

fn is_joined_with(output: Port, input: Port) -> bool
    ensures { result ≡ is_joined_with output input }
{
    match output.state.link {
        Some(link) => link.peer == input.key,
        None => false,
    }
}

/// Why the two ports aren't joined, where both components are there and aren't Invalid.
fn ports_refusal<C>(
    stock: &Stock,
    giver: &Component<C>,
    taker: &Component<C>,
    output: Port,
    input: Port,
) -> Option<OmxError>
    requires output { IsPort output.key (stocked stock.now) }
    requires input { IsPort input.key (stocked stock.now) }
    ensures { result ≡ ports_refusal (stocked stock.now).headers (component_of giver.now) (component_of taker.now) output input }
{
    if !are_output_and_input(output, input) {
        Some(OmxError::BadPortIndex)
    } else if same_handle(giver.handle(), taker.handle()) {
        Some(OmxError::BadParameter)
    } else if is_fixed(stock, giver, output) || is_fixed(stock, taker, input) {
        Some(OmxError::IncorrectStateOperation)
    } else if !tunnel_rules::compatible(
        output.setting.definition.format,
        input.setting.definition.format,
    ) {
        Some(OmxError::PortsNotCompatible)
    } else {
        None
    }
}

/// Why the port of the first component isn't joined to the port of the second.
pub fn setup_refusal<C>(
    stock: &Stock,
    giver: &Component<C>,
    taker: &Component<C>,
    output: u32,
    input: u32,
) -> Option<OmxError>
    requires giver { HasAllPorts (component_of giver.now) (stocked stock.now) }
    requires taker { HasAllPorts (component_of taker.now) (stocked stock.now) }
    ensures { result ≡ setup_refusal (stocked stock.now).headers (component_of giver.now) (component_of taker.now) (port_of (component_of giver.now) output) (port_of (component_of taker.now) input) }
{
    if giver.is_invalid() || taker.is_invalid() {
        return Some(OmxError::InvalidState);
    }
    let Some(output) = giver.port(output) else {
        return Some(OmxError::BadPortIndex);
    };
    let Some(input) = taker.port(input) else {
        return Some(OmxError::BadPortIndex);
    };
    ports_refusal(stock, giver, taker, output, input)
}

/// Why the tunnel between the two ports isn't dropped.
pub fn drop_refusal<C>(
    stock: &Stock,
    giver: &Component<C>,
    taker: &Component<C>,
    output: u32,
    input: u32,
) -> Option<OmxError>
    requires giver { HasAllPorts (component_of giver.now) (stocked stock.now) }
    requires taker { HasAllPorts (component_of taker.now) (stocked stock.now) }
    ensures { result ≡ drop_refusal (stocked stock.now).headers (port_of (component_of giver.now) output) (port_of (component_of taker.now) input) }
{
    let Some(output) = giver.port(output) else {
        return Some(OmxError::BadPortIndex);
    };
    let Some(input) = taker.port(input) else {
        return Some(OmxError::BadPortIndex);
    };
    if !are_output_and_input(output, input) {
        Some(OmxError::BadPortIndex)
    } else if !is_joined_with(output, input) {
        Some(OmxError::BadParameter)
    } else if !is_unmade(stock, output) || !is_unmade(stock, input) {
        Some(OmxError::IncorrectStateOperation)
    } else {
        None
    }
}

/// The setting of the first port, with the greater count and the greater size of the two.
pub fn widened(port: Port, peer: Port) -> PortSetting
    ensures { result ≡ widened port peer }
{
    let mut setting = port.setting;
    setting.definition.count = setting.definition.count.max(peer.setting.definition.count);
    setting.definition.size = setting.definition.size.max(peer.setting.definition.size);
    setting
}
