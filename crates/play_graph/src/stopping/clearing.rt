//! The headers of all links go home and are released, once all components are Invalid.

ghost use Rattle.std.specs.Prelude.{◌≡◌, ◌+◌, ◌<◌, ◌≤◌, false, true, length, IsFalse, IsTrue};
ghost use Rattle.il_machine.specs.Whole.{StepsWhere};
ghost use Rattle.il_graph.specs.Shown.{KeepsAllFiles, look_of};
ghost use Rattle.play_build_laws.specs.Dismantling.{AreLinks};
ghost use Rattle.play_build_laws.specs.Halting.{KeepsFiles, headers_at};
ghost use Rattle.play_graph.specs.Graphs.{kept_of};
ghost use Rattle.play_plan_laws.specs.Endings.{ends_of};
ghost use Rattle.play_graph.specs.Ending.{StandsFor};
ghost use Rattle.play_graph.specs.Stops.{HasBrought, HasCleared, IsActed, has_acted};

use crate::{handle, joint, link_count};
use conductor::PlayClient;
use il_graph::{Acted, Graph, OmxError};
use outside_io::{Sink, Source};
use stream_plan::Plan;

/// Whether the act was done. It isn't refused.
fn acted(answer: Result<Acted, OmxError>) -> bool
    requires { IsActed answer }
    ensures { result ≡ has_acted answer }
{
    match answer {
        Ok(Acted::Did) => true,
        Ok(Acted::Idle(_)) => false,
        Err(_) => unreachable!(),
    }
}

/// A header goes from the link's output to its input. Answers whether there was one.
fn hand_back<S: Source, K: Sink>(
    graph: &mut Graph<S, K, PlayClient>,
    plan: &Plan,
    link: u32,
) -> bool
    requires there { link < length plan.now.joints }
    requires links { AreLinks (ends_of plan.now) (length plan.now.joints) }
    requires stands { StandsFor (HasCleared plan.now link) graph.old }
    ensures steps { StepsWhere (kept_of graph.old) (kept_of graph.new) (HasCleared plan.now link) (λ w v. HasCleared plan.now link v × KeepsFiles w v) }
    ensures files { KeepsAllFiles graph.old graph.new }
    ensures fewer { IsTrue result → headers_at (ends_of plan.now false link) (look_of graph.new) < headers_at (ends_of plan.now false link) (look_of graph.old) }
    ensures none { IsFalse result → headers_at (ends_of plan.now false link) (look_of graph.new) ≡ 0 }
{
    let joint = joint(plan, link);
    let h = handle(graph, joint.giver);
    acted(graph.hand_back(h, joint.output))
}

/// All headers of the link come to its input.
fn bring_back<S: Source, K: Sink>(graph: &mut Graph<S, K, PlayClient>, plan: &Plan, link: u32)
    requires there { link < length plan.now.joints }
    requires links { AreLinks (ends_of plan.now) (length plan.now.joints) }
    requires stands { StandsFor (HasCleared plan.now link) graph.old }
    ensures steps { StepsWhere (kept_of graph.old) (kept_of graph.new) (HasCleared plan.now link) (λ w v. HasBrought plan.now link v × KeepsFiles w v) }
    ensures files { KeepsAllFiles graph.old graph.new }
{
    while hand_back(graph, plan, link) {}
}

/// The link's input unmakes a header. Answers whether there was one.
fn release<S: Source, K: Sink>(graph: &mut Graph<S, K, PlayClient>, plan: &Plan, link: u32) -> bool
    requires there { link < length plan.now.joints }
    requires stands { StandsFor (HasBrought plan.now link) graph.old }
    ensures steps { StepsWhere (kept_of graph.old) (kept_of graph.new) (HasBrought plan.now link) (λ w v. HasBrought plan.now link v × KeepsFiles w v) }
    ensures files { KeepsAllFiles graph.old graph.new }
    ensures fewer { IsTrue result → headers_at (ends_of plan.now true link) (look_of graph.new) < headers_at (ends_of plan.now true link) (look_of graph.old) }
    ensures none { IsFalse result → headers_at (ends_of plan.now true link) (look_of graph.new) ≡ 0 }
{
    let joint = joint(plan, link);
    let h = handle(graph, joint.taker);
    acted(graph.release(h, joint.input))
}

/// All headers of the link are unmade.
fn unmake<S: Source, K: Sink>(graph: &mut Graph<S, K, PlayClient>, plan: &Plan, link: u32)
    requires there { link < length plan.now.joints }
    requires stands { StandsFor (HasBrought plan.now link) graph.old }
    ensures steps { StepsWhere (kept_of graph.old) (kept_of graph.new) (HasBrought plan.now link) (λ w v. HasCleared plan.now (link + 1) v × KeepsFiles w v) }
    ensures files { KeepsAllFiles graph.old graph.new }
{
    while release(graph, plan, link) {}
}

/// All headers of all links are.
pub(crate) fn clear_links<S: Source, K: Sink>(graph: &mut Graph<S, K, PlayClient>, plan: &Plan)
    requires few { length plan.now.joints ≤ 1024 }
    requires links { AreLinks (ends_of plan.now) (length plan.now.joints) }
    requires stands { StandsFor (HasCleared plan.now 0) graph.old }
    ensures steps { StepsWhere (kept_of graph.old) (kept_of graph.new) (HasCleared plan.now 0) (λ w v. HasCleared plan.now (length plan.now.joints) v × KeepsFiles w v) }
    ensures files { KeepsAllFiles graph.old graph.new }
{
    for link in 0..link_count(plan) {
        bring_back(graph, plan, link);
        unmake(graph, plan, link);
    }
}
