//! The ports at both ends of each link are set (OpenMAX IL 1.1.2, `OMX_SetParameter`).

ghost use Rattle.std.specs.Prelude.{◌≡◌, ◌<◌, ◌≤◌, false, length, slice_get};
ghost use Rattle.part_forms.specs.Kinds.{is_late};
ghost use Rattle.play_forms.specs.Parts.{passes_at};
ghost use Rattle.play_forms.specs.Plans.{IsValid};
ghost use Rattle.play_plan_laws.specs.Casting.{flow_of};
ghost use Rattle.play_build_laws.specs.Stages.{Setting};
ghost use Rattle.play_plan_laws.specs.Assemblies.{is_late_link, opening_format};
ghost use Rattle.play_graph.specs.LinkEnds.{at_input};
ghost use Rattle.play_graph.specs.Making.{GoesOn, SomeAt, definition_at, next_setting};

use crate::handles::{handle, joint, link_count};
use crate::link_end::{End, index_at, is_input, place_at};
use conductor::PlayClient;
use il_graph::{Format, Graph, Param, ParamKey, PortDefinition, Version};
use omx_types::Kind;
use outside_io::{Sink, Source};
use stream_plan::{Plan, kind_of};

fn is_late(kind: Kind) -> bool
    ensures { result ≡ is_late kind }
{
    matches!(kind, Kind::Late)
}

/// Whether the component at the place is a late source.
fn is_late_at(plan: &Plan, place: u32) -> bool
    requires { place < length plan.now.parts }
    ensures { result ≡ passes_at is_late (slice_get plan.now.parts place) }
{
    is_late(kind_of(&plan.parts()[place as usize].form))
}

/// A late source tells its format while the play runs.
fn format_by(late: bool, format: Format) -> Format
    ensures { result ≡ opening_format late format }
{
    if late { Format::Auto } else { format }
}

/// The format of a link as its play begins.
fn opening_format(plan: &Plan, link: u32) -> Format
    requires there { link < length plan.now.joints }
    requires valid { IsValid plan.now }
    ensures { result ≡ opening_format (is_late_link plan.now link) (flow_of plan.now link).format }
{
    let late = is_late_at(plan, joint(plan, link).giver);
    let flow = plan.flows()[link as usize];
    format_by(late, flow.format)
}

/// What is set of the link's end.
fn definition(plan: &Plan, end: End, link: u32) -> PortDefinition
    requires there { link < length plan.now.joints }
    requires valid { IsValid plan.now }
    ensures { result ≡ definition_at plan.now end link }
{
    let joint = joint(plan, link);
    PortDefinition {
        input: is_input(end),
        format: opening_format(plan, link),
        count: joint.count,
        size: joint.size,
    }
}

/// Sets the link's output, or then its input.
fn set_end<S: Source, K: Sink>(
    graph: &mut Graph<S, K, PlayClient>,
    plan: &Plan,
    link: u32,
    end: End,
)
    requires there { link < length plan.now.joints }
    requires valid { IsValid plan.now }
    requires stands { SomeAt plan.now (Setting link (at_input end)) graph.old }
    ensures { GoesOn plan.now (Setting link (at_input end)) (next_setting link end) graph.old graph.new }
{
    let joint = joint(plan, link);
    let h = handle(graph, place_at(joint, end));
    let key = ParamKey {
        version: Version::V112,
        index: 1,
        port: index_at(joint, end),
    };
    // Nothing refuses it where the graph stands so.
    let _ = graph.set_parameter(h, key, Param::Port(definition(plan, end, link)));
}

/// Sets the ends of all links.
pub(crate) fn set_ends<S: Source, K: Sink>(graph: &mut Graph<S, K, PlayClient>, plan: &Plan)
    requires few { length plan.now.joints ≤ 1024 }
    requires valid { IsValid plan.now }
    requires stands { SomeAt plan.now (Setting 0 false) graph.old }
    ensures { GoesOn plan.now (Setting 0 false) (Setting (length plan.now.joints) false) graph.old graph.new }
{
    for link in 0..link_count(plan) {
        set_end(graph, plan, link, End::Output);
        set_end(graph, plan, link, End::Input);
    }
}
