//! A command is sent to a component, and a sent one is run, each with its reply.

ghost use Rattle.std.specs.Prelude.{◌≡◌, List};
ghost use Rattle.il_machine.specs.Acts as acts;
ghost use Rattle.il_machine.specs.Whole.{Steps};
ghost use Rattle.trace_run.specs.declared.names.NamedComponent.{NamedComponent as Named};
ghost use Rattle.trace_run.specs.Standing.{graph_kept, Replied, IsNamedGraph};

use crate::acts::replies::{answer_reply, plain_reply};
use crate::client::TraceGraph;
use crate::names::NamedComponent;
use act_text::TextReply;
use omx_types::{Command, Handle};

/// Queues the command.
pub fn send(graph: &mut TraceGraph, h: Handle, command: Command) -> TextReply
    ensures { (components : List Named) → Steps (graph_kept graph.old) (graph_kept graph.new) (λ w v. Replied components (acts.SendCommand h command) result w v) }
{
    plain_reply(graph.send_command(h, command))
}

/// Carries out the first command of the queue.
pub fn run(graph: &mut TraceGraph, components: &[NamedComponent], h: Handle) -> TextReply
    requires { IsNamedGraph (graph_kept graph.old) components.now }
    ensures { Steps (graph_kept graph.old) (graph_kept graph.new) (λ w v. Replied components.now (acts.RunCommand h) result w v) }
{
    answer_reply(components, graph.run_command(h))
}
