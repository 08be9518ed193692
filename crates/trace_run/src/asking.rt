//! The lines that name neither a header nor the kind of a component.

ghost use Rattle.std.specs.Prelude.{List};
ghost use Rattle.il_machine.specs.Whole.{Steps};
ghost use Rattle.il_machine.specs.Acts as acts;
ghost use Rattle.omx_types.specs.declared.command.Command.TheVariants.{MarkBuffer};
ghost use Rattle.trace_run.specs.Naming.{NamedHeader, handle_in};
ghost use Rattle.trace_run.specs.Standing.{graph_kept, AskReplied, IsNamedGraph, IsPlain, IsSetting, IsTunneling, IsSending, Replied};

use crate::acts::{
    back, drop_tunnel, free, grant, over, port, preempt, release, run, send, set_config,
    set_definition, set_parameter, state, supply, tunnel,
};
use crate::client::TraceGraph;
use crate::names::{NamedComponent, handle_of, port_id};
use act_text::{Name, TextAct, TextReply};
use omx_types::{Command, Param};

/// Makes the act of a line that takes no note and moves no work.
pub fn ask(graph: &mut TraceGraph, components: &[NamedComponent], act: &TextAct) -> TextReply
    requires plain { IsPlain act.now }
    requires named { IsNamedGraph (graph_kept graph.old) components.now }
    ensures { (headers : List NamedHeader) → Steps (graph_kept graph.old) (graph_kept graph.new) (AskReplied components.now headers act.now result) }
{
    match act {
        TextAct::Free(component) => free(graph, handle_of(components, component)),
        TextAct::State(component) => state(graph, handle_of(components, component)),
        TextAct::Port(at) => port(graph, handle_of(components, &at.component), at.index),
        TextAct::SetPort { .. }
        | TextAct::SetSupplier { .. }
        | TextAct::SetPriority { .. }
        | TextAct::Gain { .. }
        | TextAct::Weight { .. } => set(graph, components, act),
        TextAct::Tunnel { .. } | TextAct::DropTunnel { .. } => join(graph, components, act),
        TextAct::SendState { .. }
        | TextAct::SendFlush { .. }
        | TextAct::SendDisable { .. }
        | TextAct::SendEnable { .. }
        | TextAct::SendMark { .. } => command(graph, components, act),
        TextAct::Run(component) => run(graph, components, handle_of(components, component)),
        TextAct::Supply(at) => supply(graph, components, port_id(components, at)),
        TextAct::Release(at) => release(graph, components, port_id(components, at)),
        TextAct::Over(at) => over(graph, components, port_id(components, at)),
        TextAct::Back(at) => back(graph, components, port_id(components, at)),
        TextAct::Grant => grant(graph, components),
        TextAct::Preempt => preempt(graph, components),
        TextAct::Claim(_) | TextAct::Finish(_) | TextAct::Take(_) | TextAct::End(_) => {
            TextReply::NotOut
        }
    }
}

/// Sets what the line says.
fn set(graph: &mut TraceGraph, components: &[NamedComponent], act: &TextAct) -> TextReply
    requires { IsSetting act.now }
    ensures { (headers : List NamedHeader) → Steps (graph_kept graph.old) (graph_kept graph.new) (AskReplied components.now headers act.now result) }
{
    match act {
        TextAct::SetPort {
            port,
            format,
            count,
            size,
        } => set_definition(graph, port_id(components, port), *format, *count, *size),
        TextAct::SetSupplier { port, supplier } => {
            let at = port_id(components, port);
            set_parameter(graph, at.handle, 2, at.index, Param::Supplier(*supplier))
        }
        TextAct::SetPriority {
            component,
            priority,
        } => {
            let h = handle_of(components, component);
            set_parameter(graph, h, 3, 0, Param::Priority(*priority))
        }
        TextAct::Gain { component, gain } => {
            let h = handle_of(components, component);
            set_config(graph, h, 4, 0, Param::Gain(*gain))
        }
        TextAct::Weight { port, weight } => {
            let at = port_id(components, port);
            set_config(graph, at.handle, 5, at.index, Param::Weight(*weight))
        }
        _ => unreachable!(),
    }
}

/// Makes or drops the tunnel that the line says.
fn join(graph: &mut TraceGraph, components: &[NamedComponent], act: &TextAct) -> TextReply
    requires { IsTunneling act.now }
    ensures { (headers : List NamedHeader) → Steps (graph_kept graph.old) (graph_kept graph.new) (AskReplied components.now headers act.now result) }
{
    match act {
        TextAct::Tunnel { first, second } => tunnel(
            graph,
            port_id(components, first),
            port_id(components, second),
        ),
        TextAct::DropTunnel { first, second } => drop_tunnel(
            graph,
            port_id(components, first),
            port_id(components, second),
        ),
        _ => unreachable!(),
    }
}

/// Sends the command that the line says.
fn command(graph: &mut TraceGraph, components: &[NamedComponent], act: &TextAct) -> TextReply
    requires { IsSending act.now }
    ensures { (headers : List NamedHeader) → Steps (graph_kept graph.old) (graph_kept graph.new) (AskReplied components.now headers act.now result) }
{
    match act {
        TextAct::SendState { component, state } => {
            let h = handle_of(components, component);
            send(graph, h, Command::StateSet(*state))
        }
        TextAct::SendFlush { component, ports } => {
            let h = handle_of(components, component);
            send(graph, h, Command::Flush(*ports))
        }
        TextAct::SendDisable { component, ports } => {
            let h = handle_of(components, component);
            send(graph, h, Command::PortDisable(*ports))
        }
        TextAct::SendEnable { component, ports } => {
            let h = handle_of(components, component);
            send(graph, h, Command::PortEnable(*ports))
        }
        TextAct::SendMark {
            component,
            port,
            target,
            value,
        } => send_mark(graph, components, component, *port, target, *value),
        _ => unreachable!(),
    }
}

fn send_mark(
    graph: &mut TraceGraph,
    components: &[NamedComponent],
    component: &Name,
    port: u32,
    target: &Name,
    value: u64,
) -> TextReply
    ensures { Steps (graph_kept graph.old) (graph_kept graph.new) (λ w v. Replied components.now
        (acts.SendCommand (handle_in components.now component.now) (MarkBuffer port (handle_in components.now target.now) value)) result w v) }
{
    let target = handle_of(components, target);
    let mark = Command::MarkBuffer {
        port,
        target,
        value,
    };
    send(graph, handle_of(components, component), mark)
}
