//! Which link of a late source is changed next, and by which step.

ghost use Rattle.std.specs.Prelude.{◌≡◌, ◌<◌, false, length, IfSome, IfNone};
ghost use Rattle.std.specs.List.{list_any};
ghost use Rattle.std.specs.Option.{option_copied};
ghost use Rattle.conductor.specs.Phases.{has_half, has_settings, is_changed, is_disabled, is_half, is_ready, one_step_more};
ghost use Rattle.conductor.specs.Changing.{HasNoStep, IsDue, IsFirst, IsNextStep, NoneDue};

use crate::{ChangeStep, LateLink};
use il_machine::Progress;

/// The step that is due, and the number of its link.
#[derive(Clone, Copy)]
pub struct Due {
    pub number: usize,
    pub step: ChangeStep,
}

fn is_disabled(late: &LateLink) -> bool
    ensures { result ≡ is_disabled late.now }
{
    late.output_disabled && late.input_disabled
}

fn is_changed(late: &LateLink) -> bool
    ensures { result ≡ is_changed late.now }
{
    late.steps == 3 && late.output_enabled && late.input_enabled
}

fn is_half(late: &LateLink) -> bool
    ensures { result ≡ is_half late.now }
{
    late.steps > 0 && !is_changed(late)
}

fn has_settings(progress: Option<&Progress>) -> bool
    ensures { result ≡ has_settings (option_copied progress.entry) }
{
    match progress {
        Some(progress) => progress.settings.is_some(),
        None => false,
    }
}

fn is_ready(told: &[Progress], late: &LateLink) -> bool
    ensures { result ≡ is_ready told.now late.now }
{
    has_settings(told.get(late.source as usize)) && !is_changed(late)
}

/// The link whose change was begun and isn't done.
fn first_half(lates: &[LateLink]) -> Option<usize>
    ensures some { IfSome result (IsFirst is_half lates.now) }
    ensures none { IfNone result (has_half lates.now ≡ false) }
{
    for (number, late) in lates.iter().enumerate() {
        if is_half(late) {
            return Some(number);
        }
    }
    None
}

/// The first link whose change may begin.
fn first_ready(told: &[Progress], lates: &[LateLink]) -> Option<usize>
    ensures some { IfSome result (IsFirst (is_ready told.now) lates.now) }
    ensures none { IfNone result (list_any (is_ready told.now) lates.now ≡ false) }
{
    for (number, late) in lates.iter().enumerate() {
        if is_ready(told, late) {
            return Some(number);
        }
    }
    None
}

/// Whether a link's change may begin.
pub fn has_ready(told: &[Progress], lates: &[LateLink]) -> bool
    ensures { result ≡ list_any (is_ready told.now) lates.now }
{
    lates.iter().any(|late| is_ready(told, late))
}

/// Whether a link's change was begun and isn't done.
pub fn has_half(lates: &[LateLink]) -> bool
    ensures { result ≡ has_half lates.now }
{
    lates.iter().any(|late| is_half(late))
}

/// The step with which a change that was begun goes on.
fn next_step(late: &LateLink) -> Option<ChangeStep>
    ensures some { IfSome result (IsNextStep late.now) }
    ensures none { IfNone result (HasNoStep late.now) }
{
    if late.steps == 2 {
        return Some(ChangeStep::Enable);
    }
    if late.steps == 1 && is_disabled(late) {
        return Some(ChangeStep::Retune);
    }
    None
}

/// The step that is due where the links may be changed.
pub fn step_due(told: &[Progress], lates: &[LateLink]) -> Option<Due>
    ensures some { IfSome result (IsDue told.now lates.now) }
    ensures none { IfNone result (NoneDue told.now lates.now) }
{
    if let Some(number) = first_half(lates) {
        return match next_step(&lates[number]) {
            Some(step) => Some(Due { number, step }),
            None => None,
        };
    }
    match first_ready(told, lates) {
        Some(number) => Some(Due {
            number,
            step: ChangeStep::Disable,
        }),
        None => None,
    }
}

/// The late link, one step further in its change.
pub fn one_step_more(late: LateLink) -> LateLink
    requires { late.steps < 3 }
    ensures { result ≡ one_step_more late }
{
    let mut next = late;
    next.steps += 1;
    next
}
