//! A component's handle is freed, and its state and its ports are looked at, each with its reply.

ghost use Rattle.std.specs.Prelude.{◌≡◌, List};
ghost use Rattle.il_machine.specs.Acts as acts;
ghost use Rattle.il_machine.specs.Whole.{Steps};
ghost use Rattle.trace_run.specs.declared.names.NamedComponent.{NamedComponent as Named};
ghost use Rattle.trace_run.specs.Standing.{graph_kept, IsAtRest, Replied};

use crate::client::TraceGraph;
use act_text::TextReply;
use omx_types::Handle;

/// Frees the component. Its file is none, and its client object goes.
pub fn free(graph: &mut TraceGraph, h: Handle) -> TextReply
    ensures { (components : List Named) → Steps (graph_kept graph.old) (graph_kept graph.new) (λ w v. Replied components (acts.FreeHandle h) result w v) }
{
    match graph.free_handle(h) {
        Ok(_freed) => TextReply::Done,
        Err(error) => TextReply::Error(error),
    }
}

/// The state of the component.
pub fn state(graph: &TraceGraph, h: Handle) -> TextReply
    requires { IsAtRest (graph_kept graph.now) }
    ensures { (components : List Named) → Steps (graph_kept graph.now) (graph_kept graph.now) (λ w v. Replied components (acts.GetState h) result w v) }
{
    match graph.get_state(h) {
        Ok(state) => TextReply::State(state),
        Err(error) => TextReply::Error(error),
    }
}

/// What is seen of the port.
pub fn port(graph: &TraceGraph, h: Handle, index: u32) -> TextReply
    requires { IsAtRest (graph_kept graph.now) }
    ensures { (components : List Named) → Steps (graph_kept graph.now) (graph_kept graph.now) (λ w v. Replied components (acts.PortView h index) result w v) }
{
    match graph.port_view(h, index) {
        Ok(view) => TextReply::Port(view),
        Err(error) => TextReply::Error(error),
    }
}
