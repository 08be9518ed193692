//! The seats of the components of a graph.

ghost use Rattle.std.specs.Prelude.{◌<◌, ◌≤◌, ℕ, length, IfSome};
ghost use Rattle.play_build_laws.specs.Stages.{Joining};
ghost use Rattle.play_graph.specs.Making.{IsMade, SomeAt};
ghost use Rattle.worker_course.specs.Seated.{AreHandles, AreSeated};

use conductor::PlayClient;
use il_graph::{Graph, Handle};
use outside_io::{Sink, Source};
use play_graph::handle;
use std::alloc::Global;
use stream_plan::Plan;
use work_signs::{Seat, seats_of};

/// The handles of the components, by their places.
fn handles_in<S: Source, K: Sink>(graph: &Graph<S, K, PlayClient>, places: usize) -> [Handle; 32]
    requires few { places ≤ 32 }
    requires made { (place : ℕ) → place < places → IsMade place graph.now }
    ensures { AreHandles graph.now places result }
{
    let mut handles = [Handle::none(); 32];
    for place in 0..places {
        handles[place] = handle(graph, place as u32);
    }
    handles
}

/// The seats of the components of a graph. `None` where memory is wanting.
pub(crate) fn seats_in<S: Source, K: Sink>(
    alloc: Global,
    graph: &Graph<S, K, PlayClient>,
    plan: &Plan,
) -> Option<Vec<Seat>>
    requires few { length plan.now.parts ≤ 32 }
    requires stands { SomeAt plan.now (Joining (length plan.now.joints)) graph.now }
    ensures { IfSome result (λ seats. AreSeated plan.now graph.now seats.items) }
{
    let places = plan.parts().len();
    let handles = handles_in(graph, places);
    match seats_of(alloc, plan, &handles[..places]) {
        Ok(seats) => Some(seats),
        Err(_) => None,
    }
}
