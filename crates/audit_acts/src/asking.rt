//! What a line asks of a graph.

ghost use Rattle.std.specs.Prelude.{◌≡◌, length, IfNone, IfSome};
ghost use Rattle.il_machine.specs.Acts.{Act as Plain};
ghost use Rattle.play_log.specs.Saying.{Of, SaysAct, key, port_at};
ghost use Rattle.graph_acts.specs.Plain.{Unsaid, plain_act, sight_of};
ghost use Rattle.audit_acts.specs.Asking.{IsOfOne, IsOfTwo, IsPlain, IsSaid, IsUnknown, act_by, component_in, scene_in};

use crate::players::player_of;
use act_text::{Name, PortName, TextAct};
use graph_acts::Act;
use note_queues::Client;
use omx_types::{Command, Handle, Param, ParamKey, PortDefinition, PortId, Version};
use outside_io::{Sink, Source};
use param_store::inputs;
use script_lang::PartLine;
use stream_plan::kind_of;

/// The component that a line names which names one.
fn component_in(said: &TextAct) -> Name
    requires { IsOfOne said.now }
    ensures { result ≡ component_in said.now }
{
    match said {
        TextAct::SetPort { port, .. } => port.component,
        TextAct::SendState { component, .. }
        | TextAct::SendDisable { component, .. }
        | TextAct::SendEnable { component, .. } => *component,
        TextAct::Run(component) | TextAct::Claim(component) | TextAct::Take(component) => {
            *component
        }
        TextAct::Supply(port)
        | TextAct::Release(port)
        | TextAct::Over(port)
        | TextAct::Back(port) => port.component,
        _ => unreachable!(),
    }
}

/// Names the definition of the port.
fn definition_key(port: u32) -> ParamKey
    ensures { result ≡ key 1 port }
{
    ParamKey {
        version: Version::V112,
        index: 1,
        port,
    }
}

/// The act of a line of the component of the handle, which is the script's part.
fn one_act<S: Source, K: Sink, C: Client>(
    part: &PartLine,
    h: Handle,
    said: &TextAct,
) -> Act<S, K, C>
    requires { IsOfOne said.now }
    ensures act { (u : Unsaid) → plain_act (sight_of C.Client S.Source K.Sink) u result ≡ act_by part.now h said.now }
    ensures plain { IsPlain result }
{
    match said {
        TextAct::SetPort {
            port,
            format,
            count,
            size,
        } => Act::SetParameter(
            h,
            definition_key(port.index),
            Param::Port(PortDefinition {
                input: port.index < inputs(kind_of(&part.form)),
                format: *format,
                count: *count,
                size: *size,
            }),
        ),
        TextAct::SendState { state, .. } => Act::SendCommand(h, Command::StateSet(*state)),
        TextAct::SendDisable { ports, .. } => Act::SendCommand(h, Command::PortDisable(*ports)),
        TextAct::SendEnable { ports, .. } => Act::SendCommand(h, Command::PortEnable(*ports)),
        TextAct::Run(_) => Act::RunCommand(h),
        TextAct::Claim(_) => Act::Claim(h),
        TextAct::Supply(port) => Act::Supply(h, port.index),
        TextAct::Release(port) => Act::Release(h, port.index),
        TextAct::Over(port) => Act::HandOver(h, port.index),
        TextAct::Back(port) => Act::HandBack(h, port.index),
        TextAct::Take(_) => Act::TakeNote(h),
        _ => unreachable!(),
    }
}

/// The port of the component of the name.
fn port_of(parts: &[PartLine], handles: &[Handle], port: &PortName) -> Option<PortId>
    requires { length handles.now ≡ length parts.now }
    ensures some { IfSome result (λ at. Of (scene_in parts.now handles.now) port.now.component (λ part h. at ≡ port_at h port.now.index)) }
    ensures none { IfNone result (IsUnknown (scene_in parts.now handles.now) port.now.component) }
{
    match player_of(parts, handles, &port.component) {
        Some(player) => Some(PortId {
            handle: player.handle,
            index: port.index,
        }),
        None => None,
    }
}

/// The two ports that a line names.
fn ports_of(
    parts: &[PartLine],
    handles: &[Handle],
    first: &PortName,
    second: &PortName,
) -> Option<(PortId, PortId)>
    requires { length handles.now ≡ length parts.now }
    ensures some { IfSome result (λ ports. Of (scene_in parts.now handles.now) first.now.component (λ one h. Of (scene_in parts.now handles.now) second.now.component (λ other k.
        (ports.0 ≡ port_at h first.now.index) × (ports.1 ≡ port_at k second.now.index)))) }
    ensures none { IfNone result (Of (scene_in parts.now handles.now) first.now.component (λ one h. Of (scene_in parts.now handles.now) second.now.component (λ other k. Unit {0})) → ⊥) }
{
    let Some(output) = port_of(parts, handles, first) else {
        return None;
    };
    let Some(input) = port_of(parts, handles, second) else {
        return None;
    };
    Some((output, input))
}

/// The act of a line of a tunnel.
fn tunnel_act<S: Source, K: Sink, C: Client>(
    parts: &[PartLine],
    handles: &[Handle],
    said: &TextAct,
) -> Option<Act<S, K, C>>
    requires two { IsOfTwo said.now }
    requires many { length handles.now ≡ length parts.now }
    ensures some { IfSome result (λ act. (u : Unsaid) → SaysAct (scene_in parts.now handles.now) said.now (plain_act (sight_of C.Client S.Source K.Sink) u act)) }
    ensures plain { IfSome result IsPlain }
    ensures none { IfNone result ((act : Plain) → SaysAct (scene_in parts.now handles.now) said.now act → ⊥) }
{
    match said {
        TextAct::Tunnel { first, second } => match ports_of(parts, handles, first, second) {
            Some((output, input)) => Some(Act::SetupTunnel(output, input)),
            None => None,
        },
        TextAct::DropTunnel { first, second } => match ports_of(parts, handles, first, second) {
            Some((output, input)) => Some(Act::DropTunnel(output, input)),
            None => None,
        },
        _ => unreachable!(),
    }
}

/// The act that a line says, by the components' lines in script order and their handles; none where it names another component.
pub fn act_of<S: Source, K: Sink, C: Client>(
    parts: &[PartLine],
    handles: &[Handle],
    said: &TextAct,
) -> Option<Act<S, K, C>>
    requires said { IsSaid said.now }
    requires many { length handles.now ≡ length parts.now }
    ensures some { IfSome result (λ act. (u : Unsaid) → SaysAct (scene_in parts.now handles.now) said.now (plain_act (sight_of C.Client S.Source K.Sink) u act)) }
    ensures plain { IfSome result IsPlain }
    ensures none { IfNone result ((act : Plain) → SaysAct (scene_in parts.now handles.now) said.now act → ⊥) }
{
    match said {
        TextAct::Tunnel { .. } | TextAct::DropTunnel { .. } => tunnel_act(parts, handles, said),
        _ => {
            let Some(player) = player_of(parts, handles, &component_in(said)) else {
                return None;
            };
            Some(one_act(&parts[player.place], player.handle, said))
        }
    }
}
