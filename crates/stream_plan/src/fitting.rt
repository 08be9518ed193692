//! Whether each link fits the input that it leads into.

ghost use Rattle.std.specs.Prelude.{◌≡◌, ◌≤◌, length, slice_get, IfSome, IfNone};
ghost use Rattle.std.specs.Option.{option_copied};
ghost use Rattle.play_forms.specs.Fitting.{AllFit, ComponentFits, Fits, InputFits, IsCause, IsMisfit, format_into};
ghost use Rattle.stream_plan.specs.Misfits.{IsFirstMisfit, IsInputMisfit};

use crate::flowing::flow_into;
use crate::kinds::{frame_bytes, is_input_format, kind_of};
use omx_types::{Format, Kind};
use param_store::{inputs, is_same_format};
use play_forms::{Flow, Joint, PlanFault};
use script_lang::PartLine;

/// Why a link with this format doesn't fit beside the component's first.
fn cause(kind: Kind, joint: &Joint, format: Format, first: Format) -> Option<PlanFault>
    ensures some { IfSome result (IsCause kind joint.now format first) }
    ensures none { IfNone result (Fits kind joint.now format first) }
{
    if !is_input_format(kind, format) {
        return Some(PlanFault::Wrong(joint.line));
    }
    if u64::from(joint.size) < frame_bytes(format) {
        return Some(PlanFault::Small(joint.line));
    }
    if !is_same_format(format, first) {
        return Some(PlanFault::Differ(joint.line));
    }
    None
}

/// Why the link into that input doesn't fit.
fn input_misfit(
    joints: &[Joint],
    flows: &[Flow],
    place: u32,
    kind: Kind,
    input: u32,
) -> Option<PlanFault>
    requires { length flows.now ≡ length joints.now }
    ensures some { IfSome result (IsInputMisfit joints.now flows.now place kind input) }
    ensures none { IfNone result (InputFits joints.now flows.now place kind input) }
{
    let format = flow_into(joints, flows, place, input).format;
    let first = flow_into(joints, flows, place, 0).format;
    for joint in joints {
        if joint.taker == place && joint.input == input {
            if let Some(fault) = cause(kind, joint, format, first) {
                return Some(fault);
            }
        }
    }
    None
}

/// Why the first link into a component that doesn't fit doesn't.
fn component_misfit(
    joints: &[Joint],
    flows: &[Flow],
    place: u32,
    part: &PartLine,
) -> Option<PlanFault>
    requires { length flows.now ≡ length joints.now }
    ensures some { IfSome result (IsFirstMisfit joints.now flows.now place part.now) }
    ensures none { IfNone result (ComponentFits joints.now flows.now place part.now) }
{
    let kind = kind_of(&part.form);
    for input in 0..inputs(kind) {
        if let Some(fault) = input_misfit(joints, flows, place, kind, input) {
            return Some(fault);
        }
    }
    None
}

fn part_at(parts: &[PartLine], place: u32) -> Option<&PartLine>
    ensures { option_copied result ≡ slice_get parts.now place }
{
    parts.get(place as usize)
}

/// Why the first link that doesn't fit doesn't, component by component in the order of placing.
pub fn misfit(
    parts: &[PartLine],
    joints: &[Joint],
    order: &[u32],
    flows: &[Flow],
) -> Option<PlanFault>
    requires { length flows.now ≡ length joints.now }
    ensures some { IfSome result (IsMisfit parts.now joints.now order.now flows.now) }
    ensures none { IfNone result (AllFit parts.now joints.now flows.now order.now) }
{
    for place in order {
        if let Some(part) = part_at(parts, *place) {
            if let Some(fault) = component_misfit(joints, flows, *place, part) {
                return Some(fault);
            }
        }
    }
    None
}
