//! Whether a line is the wanted one.

ghost use Rattle.std.specs.Prelude.{◌≡◌, ◌↔◌, IsTrue};
ghost use Rattle.omx_types.specs.declared.command.PortSel.TheVariants.{One};
ghost use Rattle.act_text.specs.declared.act.TextAct.TheVariants as lines;
ghost use Rattle.audit_order.specs.Asked.{change_act};

use crate::ends::LinkEnds;
use act_text::{Name, PortName, TextAct};
use omx_types::{Format, PortSel, State};

fn is_same_name(one: &Name, other: &Name) -> bool
    ensures { IsTrue result ↔ (one.now ≡ other.now) }
{
    one.as_bytes() == other.as_bytes()
}

fn is_same_port(one: &PortName, other: &PortName) -> bool
    ensures { IsTrue result ↔ (one.now ≡ other.now) }
{
    is_same_name(&one.component, &other.component) && one.index == other.index
}

fn is_same_state(one: State, other: State) -> bool
    ensures { IsTrue result ↔ (one ≡ other) }
{
    match one {
        State::Invalid => matches!(other, State::Invalid),
        State::Loaded => matches!(other, State::Loaded),
        State::Idle => matches!(other, State::Idle),
        State::Executing => matches!(other, State::Executing),
        State::Pause => matches!(other, State::Pause),
        State::WaitForResources => matches!(other, State::WaitForResources),
    }
}

fn is_same_format(one: Format, other: Format) -> bool
    ensures { IsTrue result ↔ (one ≡ other) }
{
    match one {
        Format::Pcm { rate, channels } => match other {
            Format::Pcm {
                rate: other_rate,
                channels: other_channels,
            } => rate == other_rate && channels == other_channels,
            _ => false,
        },
        Format::Alaw { rate, channels } => match other {
            Format::Alaw {
                rate: other_rate,
                channels: other_channels,
            } => rate == other_rate && channels == other_channels,
            _ => false,
        },
        Format::Mulaw { rate, channels } => match other {
            Format::Mulaw {
                rate: other_rate,
                channels: other_channels,
            } => rate == other_rate && channels == other_channels,
            _ => false,
        },
        Format::Auto => matches!(other, Format::Auto),
    }
}

fn is_one(ports: PortSel, port: u32) -> bool
    ensures { IsTrue result ↔ (ports ≡ One port) }
{
    match ports {
        PortSel::One(other) => other == port,
        PortSel::All => false,
    }
}

/// Whether the line sends the state to the component.
pub(crate) fn is_send(act: &TextAct, name: &Name, state: State) -> bool
    ensures { IsTrue result ↔ (act.now ≡ lines.SendState name.now state) }
{
    match act {
        TextAct::SendState {
            component,
            state: sent,
        } => is_same_name(component, name) && is_same_state(*sent, state),
        _ => false,
    }
}

fn is_disable(act: &TextAct, port: &PortName) -> bool
    ensures { IsTrue result ↔ (act.now ≡ lines.SendDisable port.now.component (One port.now.index)) }
{
    match act {
        TextAct::SendDisable { component, ports } => {
            is_same_name(component, &port.component) && is_one(*ports, port.index)
        }
        _ => false,
    }
}

fn is_enable(act: &TextAct, port: &PortName) -> bool
    ensures { IsTrue result ↔ (act.now ≡ lines.SendEnable port.now.component (One port.now.index)) }
{
    match act {
        TextAct::SendEnable { component, ports } => {
            is_same_name(component, &port.component) && is_one(*ports, port.index)
        }
        _ => false,
    }
}

fn is_drop(act: &TextAct, output: &PortName, input: &PortName) -> bool
    ensures { IsTrue result ↔ (act.now ≡ lines.DropTunnel output.now input.now) }
{
    match act {
        TextAct::DropTunnel { first, second } => {
            is_same_port(first, output) && is_same_port(second, input)
        }
        _ => false,
    }
}

fn is_tunnel(act: &TextAct, output: &PortName, input: &PortName) -> bool
    ensures { IsTrue result ↔ (act.now ≡ lines.Tunnel output.now input.now) }
{
    match act {
        TextAct::Tunnel { first, second } => {
            is_same_port(first, output) && is_same_port(second, input)
        }
        _ => false,
    }
}

fn is_setting(act: &TextAct, port: &PortName, ends: &LinkEnds) -> bool
    ensures { IsTrue result ↔ (act.now ≡ lines.SetPort port.now ends.now.format ends.now.count ends.now.size) }
{
    match act {
        TextAct::SetPort {
            port: set,
            format,
            count,
            size,
        } => {
            is_same_port(set, port)
                && is_same_format(*format, ends.format)
                && *count == ends.count
                && *size == ends.size
        }
        _ => false,
    }
}

/// Whether the line is that act of the link's change, from 0 on.
pub(crate) fn is_change_act(act: &TextAct, ends: &LinkEnds, made: u32) -> bool
    ensures { IsTrue result ↔ (act.now ≡ change_act ends.now made) }
{
    match made {
        0 => is_disable(act, &ends.output),
        1 => is_disable(act, &ends.input),
        2 => is_drop(act, &ends.output, &ends.input),
        3 => is_setting(act, &ends.output, ends),
        4 => is_setting(act, &ends.input, ends),
        5 => is_tunnel(act, &ends.output, &ends.input),
        6 => is_enable(act, &ends.output),
        _ => is_enable(act, &ends.input),
    }
}
