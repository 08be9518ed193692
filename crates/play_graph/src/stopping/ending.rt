//! The whole graph is stopped.

ghost use Rattle.std.specs.Prelude.{◌≡◌, ◌≤◌, length};
ghost use Rattle.il_machine.specs.Whole.{Always};
ghost use Rattle.play_build_laws.specs.Dismantling.{AreLinks};
ghost use Rattle.play_graph.specs.Graphs.{kept_of};
ghost use Rattle.play_plan_laws.specs.Endings.{ends_of};
ghost use Rattle.play_graph.specs.Ending.{AreBack, AreFilesOf, StandsFor};
ghost use Rattle.play_graph.specs.Making.{AreGone};
ghost use Rattle.play_graph.specs.Stops.{HasStopped};

use crate::end_graph;
use crate::stopping::clearing::clear_links;
use crate::stopping::components::stop_components;
use audio_parts::PartFile;
use conductor::PlayClient;
use il_graph::Graph;
use outside_io::{Sink, Source};
use stream_plan::Plan;

/// Stops the graph of a play, whose components are joined as the plan's links say and none of which is Invalid, and takes it apart.
/// Each file comes to the place of its component.
pub fn stop_graph<S: Source, K: Sink>(
    mut graph: Graph<S, K, PlayClient>,
    plan: &Plan,
    files: &mut [Option<PartFile<S, K>>],
)
    requires parts { length plan.now.parts ≤ 32 }
    requires joints { length plan.now.joints ≤ 1024 }
    requires many { length files.old ≡ length plan.now.parts }
    requires gone { AreGone (length plan.now.parts) files.old }
    requires links { AreLinks (ends_of plan.now) (length plan.now.joints) }
    requires stands { StandsFor (HasStopped plan.now 0) graph }
    ensures many { length files.new ≡ length files.old }
    ensures back { Always (kept_of graph) (λ w. HasStopped plan.now 0 w → AreBack w files.new) }
    ensures files { AreFilesOf graph (length plan.now.parts) files.new }
{
    stop_components(&mut graph, plan);
    clear_links(&mut graph, plan);
    end_graph(graph, plan, files);
}
