//! The acts that give and take units.

ghost use Rattle.std.specs.Prelude.{◌≡◌};
ghost use Rattle.il_machine.specs.Acts as acts;
ghost use Rattle.il_machine.specs.Whole.{Steps};
ghost use Rattle.trace_run.specs.Standing.{graph_kept, Replied, IsNamedGraph};

use crate::acts::replies::{granted_reply, preempted_reply};
use crate::client::TraceGraph;
use crate::names::NamedComponent;
use act_text::TextReply;

/// Gives the first waiter its units.
pub fn grant(graph: &mut TraceGraph, components: &[NamedComponent]) -> TextReply
    requires { IsNamedGraph (graph_kept graph.old) components.now }
    ensures { Steps (graph_kept graph.old) (graph_kept graph.new) (λ w v. Replied components.now acts.Grant result w v) }
{
    granted_reply(components, graph.grant())
}

/// Takes the units of the weakest holder for the first waiter.
pub fn preempt(graph: &mut TraceGraph, components: &[NamedComponent]) -> TextReply
    requires { IsNamedGraph (graph_kept graph.old) components.now }
    ensures { Steps (graph_kept graph.old) (graph_kept graph.new) (λ w v. Replied components.now acts.Preempt result w v) }
{
    preempted_reply(components, graph.preempt())
}
