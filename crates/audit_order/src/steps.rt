//! What was told, and where the order stands.

ghost use Rattle.std.specs.Prelude.{◌≡◌, ◌≤◌, length, slice_get, true, false};
ghost use Rattle.std.specs.Option.{option_copied};
ghost use Rattle.part_forms.specs.Kinds.{is_late};
ghost use Rattle.il_machine.specs.Kinds.{is_sink};
ghost use Rattle.play_forms.specs.Parts.{passes_at};
ghost use Rattle.conductor.specs.Phases.{has_settings};
ghost use Rattle.audit_order.specs.Asked.{state_sent};
ghost use Rattle.audit_order.specs.Steps.{AreSinksOver, IsOverAt, both_disabled, both_enabled, has_eos, is_changing, is_over, last_told};

use crate::ends::{LinkEnds, link_of};
use crate::order::Change;
use conductor::{all_told, tells_disable, tells_enable};
use il_machine::Progress;
use omx_types::State;
use script_lang::{PartForm, PartLine};
use stream_plan::Plan;

pub(crate) fn both_disabled(ends: &LinkEnds, told: &[Progress], source: u32) -> bool
    ensures { result ≡ both_disabled ends.now told.now source }
{
    let output = tells_disable(ends.output.index, told.get(source as usize));
    let input = tells_disable(ends.input.index, told.get(ends.taker as usize));
    output && input
}

fn both_enabled(ends: &LinkEnds, told: &[Progress], source: u32) -> bool
    ensures { result ≡ both_enabled ends.now told.now source }
{
    let output = tells_enable(ends.output.index, told.get(source as usize));
    let input = tells_enable(ends.input.index, told.get(ends.taker as usize));
    output && input
}

pub(crate) fn has_settings(told: &[Progress], place: u32) -> bool
    ensures { result ≡ has_settings (slice_get told.now place) }
{
    match told.get(place as usize) {
        Some(progress) => progress.settings.is_some(),
        None => false,
    }
}

fn has_eos(told: &[Progress], place: u32) -> bool
    ensures { result ≡ has_eos (slice_get told.now place) }
{
    match told.get(place as usize) {
        Some(progress) => progress.eos,
        None => false,
    }
}

/// The state that is sent as the one of that number, from 1.
pub(crate) fn state_sent(sends: u32) -> State
    ensures { result ≡ state_sent sends }
{
    match sends {
        1 => State::Idle,
        2 => State::Executing,
        3 => State::Idle,
        _ => State::Loaded,
    }
}

/// Whether each component has told the last of so many states, if one was sent.
pub(crate) fn last_told(sends: u32, told: &[Progress]) -> bool
    ensures { result ≡ last_told sends told.now }
{
    sends == 0 || all_told(state_sent(sends), told)
}

fn is_late_part(part: Option<&PartLine>) -> bool
    ensures { result ≡ passes_at is_late (option_copied part.entry) }
{
    match part {
        Some(part) => matches!(&part.form, PartForm::Late(_)),
        None => false,
    }
}

fn is_sink_part(part: Option<&PartLine>) -> bool
    ensures { result ≡ passes_at is_sink (option_copied part.entry) }
{
    match part {
        Some(part) => matches!(&part.form, PartForm::Sink(_)),
        None => false,
    }
}

pub(crate) fn is_late_at(plan: &Plan, place: u32) -> bool
    ensures { result ≡ passes_at is_late (slice_get plan.now.parts place) }
{
    is_late_part(plan.parts().get(place as usize))
}

fn is_sink_at(plan: &Plan, place: u32) -> bool
    ensures { result ≡ passes_at is_sink (slice_get plan.now.parts place) }
{
    is_sink_part(plan.parts().get(place as usize))
}

/// Whether the component at the place is no sink, or has told the end of its stream.
fn is_over_at(plan: &Plan, told: &[Progress], place: u32) -> bool
    ensures yes { result ≡ true → IsOverAt plan.now told.now place }
    ensures no { result ≡ false → IsOverAt plan.now told.now place → ⊥ }
{
    !is_sink_at(plan, place) || has_eos(told, place)
}

/// Whether each sink has told the end of its stream.
pub(crate) fn are_sinks_over(plan: &Plan, told: &[Progress]) -> bool
    requires { length plan.now.parts ≤ 32 }
    ensures yes { result ≡ true → AreSinksOver plan.now told.now }
    ensures no { result ≡ false → AreSinksOver plan.now told.now → ⊥ }
{
    for place in 0..plan.parts().len() as u32 {
        if !is_over_at(plan, told, place) {
            return false;
        }
    }
    true
}

pub(crate) fn is_changing(change: Option<Change>) -> bool
    ensures { result ≡ is_changing change }
{
    match change {
        Some(change) => change.made < 8,
        None => false,
    }
}

/// Whether both ends of the link that was changed last have told their enable.
pub(crate) fn is_over(plan: &Plan, told: &[Progress], change: Option<Change>) -> bool
    ensures { result ≡ is_over plan.now told.now change }
{
    let Some(change) = change else {
        return true;
    };
    match link_of(plan, change.source) {
        Some(ends) => both_enabled(&ends, told, change.source),
        None => false,
    }
}
