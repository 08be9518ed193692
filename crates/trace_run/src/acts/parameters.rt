//! Parameters, configs and port definitions are set on a component, each with its reply.

ghost use Rattle.std.specs.Prelude.{◌≡◌, List, Ok};
ghost use Rattle.il_machine.specs.Acts as acts;
ghost use Rattle.il_machine.specs.Whole.{Always, Steps};
ghost use Rattle.il_machine.specs.Look.{look};
ghost use Rattle.il_machine.specs.Components.{view_answer};
ghost use Rattle.omx_types.specs.declared.param.Param.TheVariants.{Port};
ghost use Rattle.trace_run.specs.Asking.{key, input_side};
ghost use Rattle.trace_run.specs.declared.names.NamedComponent.{NamedComponent as Named};
ghost use Rattle.trace_run.specs.Standing.{graph_kept, Replied};

use crate::acts::replies::plain_reply;
use crate::client::TraceGraph;
use act_text::TextReply;
use omx_types::{Format, Handle, Param, ParamKey, PortDefinition, PortId, Version};

fn key(index: u32, port: u32) -> ParamKey
    ensures { result ≡ key index port }
{
    ParamKey {
        version: Version::V112,
        index,
        port,
    }
}

/// Whether the port is an input. Where it isn't there, that makes no difference.
fn is_input(graph: &TraceGraph, h: Handle, port: u32) -> bool
    ensures { Always (graph_kept graph.now) (λ w. result ≡ input_side (view_answer h port (look w))) }
{
    match graph.port_view(h, port) {
        Ok(view) => view.input,
        Err(_) => false,
    }
}

/// Sets a port's definition, of the direction that the port has.
pub fn set_definition(
    graph: &mut TraceGraph,
    at: PortId,
    format: Format,
    count: u32,
    size: u32,
) -> TextReply
    ensures { (components : List Named) → Steps (graph_kept graph.old) (graph_kept graph.new) (λ w v. Replied components
        (acts.SetParameter at.handle (key 1 at.index) (Port (record { input = input_side (view_answer at.handle at.index (look w)); format = format; count = count; size = size }))) result w v) }
{
    let definition = PortDefinition {
        input: is_input(graph, at.handle, at.index),
        format,
        count,
        size,
    };
    set_parameter(graph, at.handle, 1, at.index, Param::Port(definition))
}

/// Sets the parameter of that index.
pub fn set_parameter(
    graph: &mut TraceGraph,
    h: Handle,
    index: u32,
    port: u32,
    value: Param,
) -> TextReply
    ensures { (components : List Named) → Steps (graph_kept graph.old) (graph_kept graph.new) (λ w v. Replied components (acts.SetParameter h (key index port) value) result w v) }
{
    plain_reply(graph.set_parameter(h, key(index, port), value))
}

/// Sets the config of that index.
pub fn set_config(
    graph: &mut TraceGraph,
    h: Handle,
    index: u32,
    port: u32,
    value: Param,
) -> TextReply
    ensures { (components : List Named) → Steps (graph_kept graph.old) (graph_kept graph.new) (λ w v. Replied components (acts.SetConfig h (key index port) value) result w v) }
{
    plain_reply(graph.set_config(h, key(index, port), value))
}
