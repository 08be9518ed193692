//! The links are parted (OpenMAX IL 1.1.2, `OMX_SetupTunnel` with no other end).

ghost use Rattle.std.specs.Prelude.{◌+◌, ◌<◌, ◌≤◌, length};
ghost use Rattle.il_machine.specs.Whole.{StepsWhere};
ghost use Rattle.il_graph.specs.Shown.{KeepsAllFiles};
ghost use Rattle.play_build_laws.specs.Dismantling.{AreLinks, IsSameButPorts};
ghost use Rattle.play_graph.specs.Graphs.{kept_of};
ghost use Rattle.play_plan_laws.specs.Endings.{HasParted, ends_of};
ghost use Rattle.play_graph.specs.Ending.{StandsFor};

use crate::handles::{handle, joint, link_count};
use conductor::PlayClient;
use il_graph::{Graph, PortId};
use outside_io::{Sink, Source};
use stream_plan::Plan;

/// Parts the next link.
fn part<S: Source, K: Sink>(graph: &mut Graph<S, K, PlayClient>, plan: &Plan, link: u32)
    requires there { link < length plan.now.joints }
    requires links { AreLinks (ends_of plan.now) (length plan.now.joints) }
    requires stands { StandsFor (HasParted plan.now link) graph.old }
    ensures steps { StepsWhere (kept_of graph.old) (kept_of graph.new) (HasParted plan.now link) (λ w v. HasParted plan.now (link + 1) v × IsSameButPorts w v) }
    ensures files { KeepsAllFiles graph.old graph.new }
{
    let joint = joint(plan, link);
    let output = PortId {
        handle: handle(graph, joint.giver),
        index: joint.output,
    };
    let input = PortId {
        handle: handle(graph, joint.taker),
        index: joint.input,
    };
    // Nothing refuses it where the graph stands so.
    let _ = graph.drop_tunnel(output, input);
}

/// Parts all links.
pub(crate) fn part_all<S: Source, K: Sink>(graph: &mut Graph<S, K, PlayClient>, plan: &Plan)
    requires few { length plan.now.joints ≤ 1024 }
    requires links { AreLinks (ends_of plan.now) (length plan.now.joints) }
    requires stands { StandsFor (HasParted plan.now 0) graph.old }
    ensures steps { StepsWhere (kept_of graph.old) (kept_of graph.new) (HasParted plan.now 0) (λ w v. HasParted plan.now (length plan.now.joints) v × IsSameButPorts w v) }
    ensures files { KeepsAllFiles graph.old graph.new }
{
    for link in 0..link_count(plan) {
        part(graph, plan, link);
    }
}
