//! The ends of a late source's link.

ghost use Rattle.std.specs.Prelude.{◌≡◌, ◌<◌, length, slice_get, slice_index_or, Some};
ghost use Rattle.play_forms.specs.Plans.{IsValid};
ghost use Rattle.play_plan_laws.specs.Casting.{flow_of, joint_of, no_joint};
ghost use Rattle.work_signs.specs.declared.seat.Seat.{Seat};
ghost use Rattle.conducting_thread.specs.Changing.{ends_of};
ghost use Rattle.conducting_thread.specs.Knowing.{GivesInto};
ghost use Rattle.work_signs.specs.Seats.{handles_of};
ghost use Rattle.conducting_thread.specs.Seating.{AreSeatsFor};

use omx_types::{Handle, PortDefinition, PortId};
use play_forms::{Flow, Joint};
use stream_plan::Plan;
use work_signs::Seat;

/// The ports at both ends of a link, and what is set of each.
#[derive(Clone, Copy)]
pub struct LinkEnds {
    pub output: PortId,
    pub input: PortId,
    pub given: PortDefinition,
    pub taken: PortDefinition,
}

/// The link that the component gives into.
pub fn link_from(plan: &Plan, component: u32) -> usize
    requires { GivesInto plan.now component }
    ensures below { result < length plan.now.joints }
    ensures gives { (slice_index_or plan.now.joints result no_joint).giver ≡ component }
{
    let joints = plan.joints();
    for link in 0..joints.len() {
        if joints[link].giver == component {
            return link;
        }
    }
    unreachable!()
}

fn joint_at(plan: &Plan, link: usize) -> Joint
    requires { link < length plan.now.joints }
    ensures { result ≡ joint_of plan.now link }
{
    plan.joints()[link]
}

fn flow_at(plan: &Plan, link: usize) -> Flow
    requires { link < length plan.now.flows }
    ensures { result ≡ flow_of plan.now link }
{
    plan.flows()[link]
}

/// The handle of the component at that place.
pub fn handle_at(seats: &[Seat], place: usize) -> Handle
    requires { place < length seats.now }
    ensures { (seat : Seat) × (slice_get seats.now place ≡ Some seat) × (result ≡ seat.handle) }
{
    seats[place].handle
}

/// What is set of an end of a link that is an input, or an output.
fn definition(joint: Joint, flow: Flow, input: bool) -> PortDefinition
    ensures { result ≡ record { input = input; format = flow.format; count = joint.count; size = joint.size } }
{
    PortDefinition {
        input,
        format: flow.format,
        count: joint.count,
        size: joint.size,
    }
}

/// The ends of the link of that number.
pub fn ends_of(plan: &Plan, seats: &[Seat], link: usize) -> LinkEnds
    requires valid { IsValid plan.now }
    requires seats { AreSeatsFor plan.now seats.now }
    requires below { link < length plan.now.joints }
    ensures { result ≡ ends_of plan.now (handles_of seats.now) link }
{
    let joint = joint_at(plan, link);
    let flow = flow_at(plan, link);
    let giver = handle_at(seats, joint.giver as usize);
    let taker = handle_at(seats, joint.taker as usize);
    let given = definition(joint, flow, false);
    let taken = definition(joint, flow, true);
    LinkEnds {
        output: PortId {
            handle: giver,
            index: joint.output,
        },
        input: PortId {
            handle: taker,
            index: joint.input,
        },
        given,
        taken,
    }
}
