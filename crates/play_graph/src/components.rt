//! Components are made.

ghost use Rattle.std.specs.Prelude.{◌+◌, ◌<◌, ◌≤◌, length, OnOk, OnErr};
ghost use Rattle.graph_core.specs.Ending.{IsAllIn};
ghost use Rattle.il_graph.specs.Shown.{look_of};
ghost use Rattle.play_build_laws.specs.Stages.{Making};
ghost use Rattle.play_graph.specs.Making.{GoesOn, SomeAt};

use crate::handles::count;
use crate::names::name_of;
use conductor::PlayClient;
use il_graph::{Graph, OutOfMemory};
use outside_io::{Sink, Source};
use std::alloc::{AllocError, Global};
use stream_plan::{Plan, kind_of};

/// Makes the component at the place, which is next.
fn make_component<S: Source, K: Sink>(
    alloc: Global,
    graph: &mut Graph<S, K, PlayClient>,
    plan: &Plan,
    place: u32,
) -> Result<(), OutOfMemory>
    requires there { place < length plan.now.parts }
    requires stands { SomeAt plan.now (Making place) graph.old }
    ensures made { OnOk result (GoesOn plan.now (Making place) (Making (place + 1)) graph.old graph.new) }
    ensures unmade { OnErr result (GoesOn plan.now (Making place) (Making place) graph.old graph.new) }
{
    let kind = kind_of(&plan.parts()[place as usize].form);
    match graph.get_handle(alloc, name_of(kind), PlayClient::new()) {
        Ok(_) => Ok(()),
        Err(_) => Err(AllocError),
    }
}

/// Makes all components, or as many as there is memory for.
pub(crate) fn make_components<S: Source, K: Sink>(
    alloc: Global,
    graph: &mut Graph<S, K, PlayClient>,
    plan: &Plan,
) -> Result<(), OutOfMemory>
    requires few { length plan.now.parts ≤ 32 }
    requires stands { SomeAt plan.now (Making 0) graph.old }
    ensures made { OnOk result (GoesOn plan.now (Making 0) (Making (length plan.now.parts)) graph.old graph.new) }
    ensures unmade { OnErr result (IsAllIn (look_of graph.new)) }
{
    for place in 0..count(plan) {
        make_component(alloc, graph, plan, place)?;
    }
    Ok(())
}
