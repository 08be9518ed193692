//! The seats of a plan.

ghost use Rattle.std.specs.Prelude.{◌≡◌, ◌≤◌, length, IfOk};
ghost use Rattle.work_signs.specs.Seats.{AreSeatsOf, inputs_by, ports_by};

use crate::OutOfMemory;
use crate::seat::Seat;
use omx_types::Handle;
use param_store::{inputs, outputs};
use play_forms::Joint;
use script_lang::PartLine;
use std::alloc::Global;
use stream_plan::{Plan, kind_of};

/// The number, as a bit.
fn bit(number: u32) -> u32 {
    if number < 32 { 1 << number } else { 0 }
}

/// The components at the other ends of the links of the one at the place, by the bits of their places.
fn near(joints: &[Joint], place: u32) -> u32 {
    let mut near = 0;
    for joint in joints {
        if joint.giver == place {
            near |= bit(joint.taker);
        }
        if joint.taker == place {
            near |= bit(joint.giver);
        }
    }
    near
}

fn seat_of(part: &PartLine, handle: Handle, near: u32) -> Seat
    ensures handle { result.handle ≡ handle }
    ensures name { result.name ≡ part.now.name }
    ensures inputs { result.inputs ≡ inputs_by part.now }
    ensures ports { result.ports ≡ ports_by part.now }
{
    let kind = kind_of(&part.form);
    Seat {
        handle,
        name: part.name,
        inputs: inputs(kind),
        ports: inputs(kind).saturating_add(outputs(kind)),
        near,
    }
}

/// The components of a plan in script order, each with the handle of its place.
pub fn seats_of(alloc: Global, plan: &Plan, handles: &[Handle]) -> Result<Vec<Seat>, OutOfMemory>
    requires few { length plan.now.parts ≤ 32 }
    requires handles { length handles.now ≡ length plan.now.parts }
    ensures { IfOk result (λ seats. AreSeatsOf plan.now.parts handles.now seats.items) }
{
    let parts = plan.parts();
    let joints = plan.joints();
    let mut seats = Vec::with_capacity(alloc, parts.len())?;
    for (place, part) in parts.iter().enumerate() {
        seats.push(seat_of(part, handles[place], near(joints, place as u32)))?;
    }
    Ok(seats)
}
