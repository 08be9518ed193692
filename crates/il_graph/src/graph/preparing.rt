//! What is set of a component is set of its part before a step.

ghost use Rattle.std.specs.Prelude.{◌≡◌, ◌+◌, ◌<◌, ◌≤◌, true, false, [], All, length};
ghost use Rattle.audio_parts.specs.Kinds.{MayHave};
ghost use Rattle.audio_parts.specs.AnyParts.{has_failed};
ghost use Rattle.audio_parts.specs.Ready.{IsReady};
ghost use Rattle.audio_parts.specs.Shapes.{IsLawful};
ghost use Rattle.audio_parts.specs.Shown.{shown_by, terms_by};
ghost use Rattle.il_flow.specs.Layouts.{ports_of};
ghost use Rattle.il_flow.specs.Places.{AreWithin, carried_from};
ghost use Rattle.il_flow.specs.Sound.{HaveOutputs};
ghost use Rattle.work_landing.specs.Places.{AreFree};
ghost use Rattle.il_component.specs.Entries.{component_of};
ghost use Rattle.il_graph.specs.Preparing.{MayHaveAll, MaySet, prepared, prepared_where, with_factors, with_formats, with_input_factor, with_port_format};

use crate::claimed::Work;
use audio_parts::{AnyPart, law_of_shown};
use il_component::Component;
use il_flow::{Desk, Seat};
use il_machine::PortSetting;
use omx_types::{Format, Handle, Kind};
use outside_io::{Sink, Source};

fn set_format<S: Source, K: Sink>(part: &mut AnyPart<S, K>, port: u32, format: Format)
    requires port { port < length (terms_by part.old).inputs + length (terms_by part.old).outputs }
    requires may { MayHave (terms_by part.old) port format }
    ensures { shown_by S.told K.told K.name part.new ≡ with_port_format port format (shown_by S.told K.told K.name part.old) }
{
    law_of_shown(part);
    part.set_format(port, format);
    law_of_shown(part);
}

/// Sets the formats of the ports from this one on.
fn set_formats<S: Source, K: Sink>(part: &mut AnyPart<S, K>, settings: &[PortSetting], port: u32)
    requires few { port + length settings.now ≤ 9 }
    requires may { MayHaveAll port settings.now (terms_by part.old) }
    ensures { shown_by S.told K.told K.name part.new ≡ with_formats port settings.now (shown_by S.told K.told K.name part.old) }
{
    let [first, rest @ ..] = settings else {
        return;
    };
    set_format(part, port, first.definition.format);
    set_formats(part, rest, port + 1);
}

fn set_factor<S: Source, K: Sink>(part: &mut AnyPart<S, K>, input: u32, factor: u32)
    requires input { input < length (terms_by part.old).factors }
    requires small { factor ≤ 65535 }
    ensures { shown_by S.told K.told K.name part.new ≡ with_input_factor input factor (shown_by S.told K.told K.name part.old) }
{
    law_of_shown(part);
    part.set_factor(input, factor);
    law_of_shown(part);
}

/// Sets the factors of the inputs from this one on.
fn set_factors<S: Source, K: Sink>(part: &mut AnyPart<S, K>, factors: &[u32], input: u32)
    requires few { input + length factors.now ≤ 8 }
    requires there { input + length factors.now ≤ length (terms_by part.old).factors }
    requires small { All (λ factor. factor ≤ 65535) factors.now }
    ensures { shown_by S.told K.told K.name part.new ≡ with_factors input factors.now (shown_by S.told K.told K.name part.old) }
{
    let [first, rest @ ..] = factors else {
        return;
    };
    set_factor(part, input, *first);
    set_factors(part, rest, input + 1);
}

/// Sets the formats and factors of the component.
fn set_all<S: Source, K: Sink, C>(part: &mut AnyPart<S, K>, component: &Component<C>)
    requires { MaySet (component_of component.now) (terms_by part.old) }
    ensures { shown_by S.told K.told K.name part.new ≡ prepared (component_of component.now) (shown_by S.told K.told K.name part.old) }
{
    set_formats(part, component.settings(), 0);
    match component.kind() {
        Kind::Gain => set_factor(part, 0, component.gain()),
        Kind::Mixer(inputs) => set_factors(part, &component.weights()[..inputs as usize], 0),
        _ => {}
    }
}

/// Sets them for a step. An announcement does none: the formats of its component may not be known yet.
fn prepare<S: Source, K: Sink, C>(
    part: &mut AnyPart<S, K>,
    component: &Component<C>,
    announces: bool,
)
    requires { announces ≡ false → MaySet (component_of component.now) (terms_by part.old) }
    ensures { shown_by S.told K.told K.name part.new ≡ prepared_where announces (component_of component.now) (shown_by S.told K.told K.name part.old) }
{
    if !announces {
        set_all(part, component);
    }
}

/// The part leaves its seat for a work, with what is set of the component.
pub(crate) fn open<S: Source, K: Sink, C>(
    seat: Seat<AnyPart<S, K>>,
    component: &Component<C>,
    announces: bool,
) -> Box<Desk<AnyPart<S, K>>>
    requires { announces ≡ false → MaySet (component_of component.now) (terms_by seat) }
    ensures part { shown_by S.told K.told K.name result.value.part ≡ prepared_where announces (component_of component.now) (shown_by S.told K.told K.name seat) }
    ensures free { AreFree result.value.headers }
{
    let Seat { mut desk } = seat;
    prepare(&mut desk.part, component, announces);
    desk
}

/// The work of the component, with the headers on its desk.
pub(crate) fn make_work<S: Source, K: Sink>(
    component: Handle,
    desk: Box<Desk<AnyPart<S, K>>>,
    announces: bool,
) -> Work<S, K>
    requires lawful { IsLawful (terms_by desk.value.part) }
    requires within { AreWithin (ports_of (terms_by desk.value.part)) 0 desk.value.headers }
    requires fits { announces ≡ false → IsReady (terms_by desk.value.part) (has_failed desk.value.part) }
    requires outputs { announces ≡ false → HaveOutputs (terms_by desk.value.part) desk.value.headers }
    requires none { announces ≡ true → carried_from 0 desk.value.headers ≡ [] }
    ensures component { result.component ≡ component }
    ensures part { result.part ≡ desk.value.part }
    ensures headers { result.headers ≡ desk.value.headers }
    ensures announces { result.announces ≡ announces }
{
    law_of_shown(&desk.part);
    Work::new(component, desk, announces)
}
