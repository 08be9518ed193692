//! The order of placing.

ghost use Rattle.std.specs.Prelude.{◌≡◌, ◌≤◌, ◌<◌, length, IfOk, IfErr, IfSome, IfNone};
ghost use Rattle.play_forms.specs.Placing.{IsNext, IsOrder, can_place, has_place, is_fed};
ghost use Rattle.stream_plan.specs.Faults.{ArePlacedAll, ForCycle, IsFirstLeft, IsStuck};

use play_forms::{Joint, PlanFault};
use script_lang::PartLine;
use std::alloc::Global;

fn has_place(placed: &[u32], place: u32) -> bool
    ensures { result ≡ has_place placed.now place }
{
    placed.iter().any(|other| *other == place)
}

fn is_fed(joints: &[Joint], placed: &[u32], place: u32) -> bool
    ensures { result ≡ is_fed joints.now placed.now place }
{
    joints.iter().all(|joint| joint.taker != place || has_place(placed, joint.giver))
}

fn can_place(joints: &[Joint], placed: &[u32], place: u32) -> bool
    ensures { result ≡ can_place joints.now placed.now place }
{
    !has_place(placed, place) && is_fed(joints, placed, place)
}

/// The first component in script order that can be placed.
fn next_place(joints: &[Joint], count: u32, placed: &[u32]) -> Option<u32>
    ensures next { IfSome result (IsNext joints.now count placed.now) }
    ensures none { IfNone result (IsStuck joints.now count placed.now) }
{
    for place in 0..count {
        if can_place(joints, placed, place) {
            return Some(place);
        }
    }
    None
}

/// The first component in script order that isn't placed.
fn first_left(count: u32, placed: &[u32]) -> Option<u32>
    ensures left { IfSome result (IsFirstLeft count placed.now) }
    ensures none { IfNone result (ArePlacedAll count placed.now) }
{
    for place in 0..count {
        if !has_place(placed, place) {
            return Some(place);
        }
    }
    None
}

/// Every component, each behind those that it takes from.
pub fn order_of(alloc: Global, parts: &[PartLine], joints: &[Joint]) -> Result<Vec<u32>, PlanFault>
    requires { length parts.now ≤ 32 }
    ensures order { IfOk result (λ order. IsOrder joints.now (length parts.now) order.items) }
    ensures cycle { IfErr result (ForCycle parts.now joints.now) }
{
    let count = parts.len() as u32;
    let mut order = Vec::with_capacity(alloc, parts.len())?;
    while let Some(place) = next_place(joints, count, order.as_slice()) {
        order.push(place)?;
    }
    match first_left(count, order.as_slice()) {
        Some(left) => Err(PlanFault::Cycle(parts[left as usize].line)),
        None => Ok(order),
    }
}
