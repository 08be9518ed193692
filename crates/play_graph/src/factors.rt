//! The gain of a gain and the weights of a mixer are set (OpenMAX IL 1.1.2, `OMX_SetConfig`).

ghost use Rattle.std.specs.Prelude.{◌≡◌, ◌+◌, ◌<◌, ◌≤◌, length, slice_get, Some};
ghost use Rattle.play_forms.specs.Parts.{factors_of};
ghost use Rattle.play_build_laws.specs.Stages.{Factoring, factor_key, factor_value};
ghost use Rattle.play_plan_laws.specs.Assemblies.{factors_in};
ghost use Rattle.play_graph.specs.Making.{GoesOn, SomeAt};

use crate::handles::{count, handle};
use conductor::PlayClient;
use il_graph::{Graph, Param, ParamKey, Version};
use omx_types::Kind;
use outside_io::{Sink, Source};
use script_lang::PartForm;
use std::slice::from_ref;
use stream_plan::{Plan, kind_of};

/// The gain of a gain, a weight for each input of a mixer.
fn factors_of(form: &PartForm) -> &[u32]
    ensures factors { result.now ≡ factors_of form.now }
    ensures few { length result.now ≤ 8 }
{
    match form {
        PartForm::Gain(gain) => from_ref(gain),
        PartForm::Mixer(weights) => weights.as_slice(),
        _ => &[],
    }
}

/// Names the gain, or the weight of the input.
fn factor_key(kind: Kind, input: u32) -> ParamKey
    ensures { result ≡ factor_key kind input }
{
    let index = match kind {
        Kind::Gain => 4,
        _ => 5,
    };
    ParamKey {
        version: Version::V112,
        index,
        port: input,
    }
}

fn factor_value(kind: Kind, factor: u32) -> Param
    ensures { result ≡ factor_value kind factor }
{
    match kind {
        Kind::Gain => Param::Gain(factor),
        _ => Param::Weight(factor),
    }
}

/// Sets the component's next factor.
fn set_factor<S: Source, K: Sink>(
    graph: &mut Graph<S, K, PlayClient>,
    plan: &Plan,
    place: u32,
    input: u32,
    factor: u32,
)
    requires there { place < length plan.now.parts }
    requires next { slice_get (factors_in (slice_get plan.now.parts place)) input ≡ Some factor }
    requires stands { SomeAt plan.now (Factoring place input) graph.old }
    ensures { GoesOn plan.now (Factoring place input) (Factoring place (input + 1)) graph.old graph.new }
{
    let kind = kind_of(&plan.parts()[place as usize].form);
    let h = handle(graph, place);
    // Nothing refuses it where the graph stands so.
    let _ = graph.set_config(h, factor_key(kind, input), factor_value(kind, factor));
}

/// Sets the factors of the component.
fn set_factors_of<S: Source, K: Sink>(graph: &mut Graph<S, K, PlayClient>, plan: &Plan, place: u32)
    requires there { place < length plan.now.parts }
    requires stands { SomeAt plan.now (Factoring place 0) graph.old }
    ensures { GoesOn plan.now (Factoring place 0) (Factoring (place + 1) 0) graph.old graph.new }
{
    let factors = factors_of(&plan.parts()[place as usize].form);
    for input in 0..factors.len() as u32 {
        set_factor(graph, plan, place, input, factors[input as usize]);
    }
}

/// Sets the factors of all components.
pub(crate) fn set_factors<S: Source, K: Sink>(graph: &mut Graph<S, K, PlayClient>, plan: &Plan)
    requires few { length plan.now.parts ≤ 32 }
    requires stands { SomeAt plan.now (Factoring 0 0) graph.old }
    ensures { GoesOn plan.now (Factoring 0 0) (Factoring (length plan.now.parts) 0) graph.old graph.new }
{
    for place in 0..count(plan) {
        set_factors_of(graph, plan, place);
    }
}
