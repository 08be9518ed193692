//! The link of a late source, as lines name it.

ghost use Rattle.std.specs.Prelude.{◌≡◌, slice_get};
ghost use Rattle.std.specs.List.{position_or_len};
ghost use Rattle.audit_order.specs.Ends.{gives, link_at, link_of, position_from};

use act_text::PortName;
use omx_types::Format;
use play_forms::Joint;
use stream_plan::Plan;

/// The two ports of a link, what is set of both, and the place of the component at its input.
#[derive(Clone, Copy)]
pub struct LinkEnds {
    pub output: PortName,
    pub input: PortName,
    pub taker: u32,
    pub format: Format,
    pub count: u32,
    pub size: u32,
}

/// The number of the first link that the component at the place gives into, or how many links there are.
fn position_from(plan: &Plan, source: u32) -> usize
    ensures { result ≡ position_from plan.now source }
{
    link_from(plan.joints(), source)
}

/// The place of the first link that the component gives into, or their number.
fn link_from(joints: &[Joint], source: u32) -> usize
    ensures { result ≡ position_or_len (gives source) joints.now }
{
    for (place, joint) in joints.iter().enumerate() {
        if joint.giver == source {
            return place;
        }
    }
    joints.len()
}

impl LinkEnds {
    /// The ends of the link of that number, from 0.
    pub fn at(plan: &Plan, link: usize) -> Option<LinkEnds>
        ensures { result ≡ link_at plan.now.parts (slice_get plan.now.joints link) (slice_get plan.now.flows link) }
    {
        let Some(joint) = plan.joints().get(link) else {
            return None;
        };
        let Some(flow) = plan.flows().get(link) else {
            return None;
        };
        let Some(giver) = plan.parts().get(joint.giver as usize) else {
            return None;
        };
        let Some(taker) = plan.parts().get(joint.taker as usize) else {
            return None;
        };
        Some(LinkEnds {
            output: PortName {
                component: giver.name,
                index: joint.output,
            },
            input: PortName {
                component: taker.name,
                index: joint.input,
            },
            taker: joint.taker,
            format: flow.format,
            count: joint.count,
            size: joint.size,
        })
    }
}

/// The link that the component at the place gives into.
pub(crate) fn link_of(plan: &Plan, source: u32) -> Option<LinkEnds>
    ensures { result ≡ link_of plan.now source }
{
    LinkEnds::at(plan, position_from(plan, source))
}
