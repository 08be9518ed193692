//! The whole graph ends.

ghost use Rattle.std.specs.Prelude.{◌≡◌, ◌≤◌, length};
ghost use Rattle.il_machine.specs.Whole.{Always};
ghost use Rattle.play_build_laws.specs.Dismantling.{AreLinks};
ghost use Rattle.play_graph.specs.Graphs.{kept_of};
ghost use Rattle.play_plan_laws.specs.Endings.{HasEnded, ends_of};
ghost use Rattle.play_graph.specs.Ending.{AreBack, AreFilesOf, StandsFor};
ghost use Rattle.play_graph.specs.Making.{AreGone};

use crate::freeing::free_all;
use crate::parting::part_all;
use audio_parts::PartFile;
use conductor::PlayClient;
use il_graph::Graph;
use outside_io::{Sink, Source};
use stream_plan::Plan;

/// Takes a graph apart, whose components rest and which has no header: its links are parted and its components freed. None of these
/// acts is refused. Each file comes to the place of its component.
pub fn end_graph<S: Source, K: Sink>(
    mut graph: Graph<S, K, PlayClient>,
    plan: &Plan,
    files: &mut [Option<PartFile<S, K>>],
)
    requires parts { length plan.now.parts ≤ 32 }
    requires joints { length plan.now.joints ≤ 1024 }
    requires many { length files.old ≡ length plan.now.parts }
    requires gone { AreGone (length plan.now.parts) files.old }
    requires links { AreLinks (ends_of plan.now) (length plan.now.joints) }
    requires ended { StandsFor (HasEnded plan.now) graph }
    ensures many { length files.new ≡ length files.old }
    ensures back { Always (kept_of graph) (λ w. HasEnded plan.now w → AreBack w files.new) }
    ensures files { AreFilesOf graph (length plan.now.parts) files.new }
{
    part_all(&mut graph, plan);
    free_all(&mut graph, plan, files);
    graph.close();
}
