//! The components and links of a play's graph, by their numbers in the plan.

ghost use Rattle.std.specs.Prelude.{◌≡◌, ◌<◌, ◌≤◌, length};
ghost use Rattle.play_plan_laws.specs.Casting.{joint_of};
ghost use Rattle.play_graph.specs.Graphs.{IsHandleAt};
ghost use Rattle.play_graph.specs.Making.{IsMade};

use conductor::PlayClient;
use il_graph::{Graph, Handle};
use outside_io::{Sink, Source};
use play_forms::Joint;
use stream_plan::Plan;

/// The component at the place.
pub fn handle<S: Source, K: Sink>(graph: &Graph<S, K, PlayClient>, place: u32) -> Handle
    requires { IsMade place graph.now }
    ensures { IsHandleAt graph.now place result }
{
    match graph.handle_at(place) {
        Some(h) => h,
        None => unreachable!(),
    }
}

/// How many components there are.
pub fn count(plan: &Plan) -> u32
    requires { length plan.now.parts ≤ 32 }
    ensures { result ≡ length plan.now.parts }
{
    plan.parts().len() as u32
}

/// How many links there are.
pub fn link_count(plan: &Plan) -> u32
    requires { length plan.now.joints ≤ 1024 }
    ensures { result ≡ length plan.now.joints }
{
    plan.joints().len() as u32
}

/// The link of that number.
pub fn joint(plan: &Plan, link: u32) -> Joint
    requires { link < length plan.now.joints }
    ensures { result ≡ joint_of plan.now link }
{
    plan.joints()[link as usize]
}
