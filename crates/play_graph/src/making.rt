//! The whole graph.

ghost use Rattle.std.specs.Prelude.{length, IfOk, OnOk, OnErr, ◌≡◌};
ghost use Rattle.il_graph.specs.Shown.{offered};
ghost use Rattle.play_graph.specs.Ending.{AreFilesOf};
ghost use Rattle.play_graph.specs.Making.{AreGone, CanMake, IsMadeOf};

use crate::components::make_components;
use crate::ends::set_ends;
use crate::factors::set_factors;
use crate::filing::give_files;
use crate::tunnels::join_all;
use audio_parts::PartFile;
use conductor::PlayClient;
use il_graph::{Graph, OutOfMemory};
use outside_io::{Sink, Source};
use std::alloc::Global;
use stream_plan::Plan;

/// Makes the graph of a plan with its files, which stand by the places of their components. Where memory is wanted, all that
/// was made is ended, and the files stay.
pub fn make_graph<S: Source, K: Sink>(
    alloc: Global,
    plan: &Plan,
    files: &mut [Option<PartFile<S, K>>],
) -> Result<Graph<S, K, PlayClient>, OutOfMemory>
    requires { CanMake plan.now (offered S.offset S.size S.told K.told) files.old }
    ensures made { IfOk result (IsMadeOf plan.now (offered S.offset S.size S.told K.told) files.old) }
    ensures many { length files.new ≡ length files.old }
    ensures files { IfOk result (λ graph. AreFilesOf graph (length plan.now.parts) files.old) }
    ensures gone { OnOk result (AreGone (length plan.now.parts) files.new) }
    ensures unmade { OnErr result (files.new ≡ files.old) }
{
    let mut graph = Graph::new(alloc, plan.units())?;
    match make_components(alloc, &mut graph, plan) {
        Ok(()) => {}
        Err(error) => {
            graph.close();
            return Err(error);
        }
    }
    set_factors(&mut graph, plan);
    set_ends(&mut graph, plan);
    give_files(&mut graph, plan, files);
    join_all(&mut graph, plan);
    graph.law_of_worlds();
    Ok(graph)
}
