//! What goes through the links, by the heads of the sources' files.

ghost use Rattle.std.specs.Prelude.{◌≡◌, ◌<◌, ◌≤◌, length, slice_get};
ghost use Rattle.std.specs.Option.{option_copied};
ghost use Rattle.play_forms.specs.Flows.{AreFrames, flow_at, flow_of_head, flow_rule, most_frames, no_flow};
ghost use Rattle.play_forms.specs.Parts.{is_source_part, source_number};
ghost use Rattle.play_forms.specs.Settling.{given_along, into, with_given};

use crate::kinds::{given_format, is_source, kind_of};
use omx_types::Format;
use param_store::inputs;
use play_forms::{Flow, Joint};
use script_lang::PartLine;
use wav_form::WavHead;

/// What is known of a link before the heads are.
pub const NO_FLOW: Flow = Flow {
    format: Format::Auto,
    frames: 0,
};

/// What the plan's links are between, and the heads of its files.
#[derive(Clone, Copy)]
pub struct Scene<'a> {
    pub parts: &'a [PartLine],
    pub joints: &'a [Joint],
    pub heads: &'a [WavHead],
}

/// What comes in at an input.
pub fn flow_into(joints: &[Joint], flows: &[Flow], place: u32, input: u32) -> Flow
    requires { length flows.now ≡ length joints.now }
    ensures { result ≡ into no_flow joints.now flows.now place input }
{
    for number in 0..joints.len() {
        let joint = joints[number];
        if joint.taker == place && joint.input == input {
            return flows[number];
        }
    }
    NO_FLOW
}

/// The frames of the longest of so many inputs.
fn most_frames(joints: &[Joint], flows: &[Flow], place: u32, inputs: u32) -> u64
    requires { length flows.now ≡ length joints.now }
    ensures { result ≡ most_frames inputs (into no_flow joints.now flows.now place) }
{
    let mut most = 0;
    for input in 0..inputs {
        most = flow_into(joints, flows, place, input).frames.max(most);
    }
    most
}

fn is_source_part(part: &PartLine) -> bool
    ensures { result ≡ is_source_part part.now }
{
    is_source(kind_of(&part.form))
}

fn source_number(parts: &[PartLine], place: u32) -> usize
    requires { place ≤ length parts.now }
    ensures { result ≡ source_number parts.now place }
{
    let mut number = 0;
    for part in &parts[..place as usize] {
        if is_source_part(part) {
            number += 1;
        }
    }
    number
}

fn flow_of_head(head: Option<&WavHead>) -> Flow
    ensures { result ≡ flow_of_head (option_copied head.entry) }
{
    match head {
        Some(head) => Flow {
            format: head.format,
            frames: head.frames,
        },
        None => NO_FLOW,
    }
}

/// What the component at a place gives at each of its outputs.
fn flow_at(scene: Scene<'_>, flows: &[Flow], place: u32) -> Flow
    requires { length flows.now ≡ length scene.joints.now }
    ensures { result ≡ flow_at scene.entry.parts.now scene.entry.heads.now (slice_get scene.entry.parts.now place) place (into no_flow scene.entry.joints.now flows.now place) }
{
    let Some(part) = scene.parts.get(place as usize) else {
        return NO_FLOW;
    };
    let kind = kind_of(&part.form);
    if is_source(kind) {
        return flow_of_head(scene.heads.get(source_number(scene.parts, place)));
    }
    let first = flow_into(scene.joints, flows, place, 0);
    Flow {
        format: given_format(kind, first.format),
        frames: most_frames(scene.joints, flows, place, inputs(kind)),
    }
}

/// Gives to each link that the component at a place gives into.
fn give(joints: &[Joint], flows: &mut [Flow], place: u32, flow: Flow)
    requires { length flows.old ≡ length joints.now }
    ensures { flows.new ≡ with_given (λ _. flow) joints.now flows.old place }
{
    for number in 0..joints.len() {
        if joints[number].giver == place {
            flows[number] = flow;
        }
    }
}

/// What goes through each link, in the order of placing.
pub fn set_flows(scene: Scene<'_>, order: &[u32], flows: &mut [Flow])
    requires { length flows.old ≡ length scene.joints.now }
    ensures { flows.new ≡ given_along (flow_rule scene.entry.parts.now scene.entry.heads.now) no_flow scene.entry.joints.now order.now flows.old }
{
    for place in order {
        let flow = flow_at(scene, flows, *place);
        give(scene.joints, flows, *place, flow);
    }
}

/// The frames that each component does.
pub fn set_frames(scene: Scene<'_>, flows: &[Flow], frames: &mut [u64])
    requires flows { length flows.now ≡ length scene.joints.now }
    requires frames { length frames.old ≡ length scene.parts.now }
    requires few { length scene.parts.now ≤ 32 }
    ensures { AreFrames scene.entry.parts.now scene.entry.joints.now scene.entry.heads.now flows.now frames.new }
{
    for place in 0..scene.parts.len() {
        frames[place] = flow_at(scene, flows, place as u32).frames;
    }
}
