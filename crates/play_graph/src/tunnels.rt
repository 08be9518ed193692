//! The links are set up as tunnels (OpenMAX IL 1.1.2, `OMX_SetupTunnel`).

ghost use Rattle.std.specs.Prelude.{◌+◌, ◌<◌, ◌≤◌, length};
ghost use Rattle.il_graph.specs.Shown.{KeepsAllFiles};
ghost use Rattle.play_build_laws.specs.Stages.{Joining};
ghost use Rattle.play_graph.specs.Making.{GoesOn, SomeAt};

use crate::handles::{handle, joint, link_count};
use conductor::PlayClient;
use il_graph::{Graph, PortId};
use outside_io::{Sink, Source};
use stream_plan::Plan;

/// Joins the ends of the link.
fn join<S: Source, K: Sink>(graph: &mut Graph<S, K, PlayClient>, plan: &Plan, link: u32)
    requires there { link < length plan.now.joints }
    requires stands { SomeAt plan.now (Joining link) graph.old }
    ensures goes { GoesOn plan.now (Joining link) (Joining (link + 1)) graph.old graph.new }
    ensures files { KeepsAllFiles graph.old graph.new }
{
    let joint = joint(plan, link);
    let output = PortId {
        handle: handle(graph, joint.giver),
        index: joint.output,
    };
    let input = PortId {
        handle: handle(graph, joint.taker),
        index: joint.input,
    };
    // Nothing refuses it where the graph stands so.
    let _ = graph.setup_tunnel(output, input);
}

/// Joins the ends of all links.
pub(crate) fn join_all<S: Source, K: Sink>(graph: &mut Graph<S, K, PlayClient>, plan: &Plan)
    requires few { length plan.now.joints ≤ 1024 }
    requires stands { SomeAt plan.now (Joining 0) graph.old }
    ensures goes { GoesOn plan.now (Joining 0) (Joining (length plan.now.joints)) graph.old graph.new }
    ensures files { KeepsAllFiles graph.old graph.new }
{
    for link in 0..link_count(plan) {
        join(graph, plan, link);
    }
}
