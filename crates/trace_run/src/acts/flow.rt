//! The acts of a component on one of its ports.

ghost use Rattle.il_machine.specs.Acts as acts;
ghost use Rattle.il_machine.specs.Whole.{Steps};
ghost use Rattle.trace_run.specs.Standing.{graph_kept, Replied, IsNamedGraph};

use crate::acts::replies::{acted_reply, answer_reply};
use crate::client::TraceGraph;
use crate::names::NamedComponent;
use act_text::TextReply;
use omx_types::{CallError, PortId};

/// Makes a header of the port's tunnel.
pub fn supply(graph: &mut TraceGraph, components: &[NamedComponent], at: PortId) -> TextReply
    requires { IsNamedGraph (graph_kept graph.old) components.now }
    ensures { Steps (graph_kept graph.old) (graph_kept graph.new) (λ w v. Replied components.now (acts.Supply at.handle at.index) result w v) }
{
    match graph.supply(at.handle, at.index) {
        Ok(acted) => acted_reply(components, acted),
        Err(CallError::Omx(error)) => TextReply::Error(error),
        Err(CallError::OutOfMemory) => unreachable!(),
    }
}

/// Unmakes a header of the port's tunnel.
pub fn release(graph: &mut TraceGraph, components: &[NamedComponent], at: PortId) -> TextReply
    requires { IsNamedGraph (graph_kept graph.old) components.now }
    ensures { Steps (graph_kept graph.old) (graph_kept graph.new) (λ w v. Replied components.now (acts.Release at.handle at.index) result w v) }
{
    answer_reply(components, graph.release(at.handle, at.index))
}

/// Hands a header over to the other end of the tunnel.
pub fn over(graph: &mut TraceGraph, components: &[NamedComponent], at: PortId) -> TextReply
    requires { IsNamedGraph (graph_kept graph.old) components.now }
    ensures { Steps (graph_kept graph.old) (graph_kept graph.new) (λ w v. Replied components.now (acts.HandOver at.handle at.index) result w v) }
{
    answer_reply(components, graph.hand_over(at.handle, at.index))
}

/// Hands a header back: to the other end of the tunnel, or to the client.
pub fn back(graph: &mut TraceGraph, components: &[NamedComponent], at: PortId) -> TextReply
    requires { IsNamedGraph (graph_kept graph.old) components.now }
    ensures { Steps (graph_kept graph.old) (graph_kept graph.new) (λ w v. Replied components.now (acts.HandBack at.handle at.index) result w v) }
{
    answer_reply(components, graph.hand_back(at.handle, at.index))
}
