//! The conductor: what was sent and told so far, and what the play does next.

ghost use Rattle.std.specs.Prelude.{◌≡◌, ◌≤◌, length, IfOk, IfSome, IfNone};
ghost use Rattle.conductor.specs.Casting.{cast_of};
ghost use Rattle.conductor.specs.Hearing.{heard};
ghost use Rattle.conductor.specs.Phases.{Conducts, IsChange, IsSendDue, is_over, may_change};
ghost use Rattle.conductor.specs.DueChange.{IsDueChange, NoChange, NoSend};

use crate::casting::{late_links, sinks_of};
use crate::changing::{Due, has_half, has_ready, one_step_more, step_due};
use crate::hearing::{hear_lates, hear_views};
use crate::sending::{all_told, has_failed, last_told, next_state, sinks_over};
use crate::{LateLink, OutOfMemory, Phase};
use il_machine::Progress;
use omx_types::State;
use std::alloc::Global;
use std::marker::Model;
use stream_plan::Plan;

/// Who says when a play goes on: what was sent so far, and what every component has told.
#[derive(Drop)]
pub struct Conductor {
    sinks: Vec<bool>,
    told: Vec<Progress>,
    lates: Vec<LateLink>,
    sends: u32,
}

impl Model for Conductor {
    ghost use Rattle.std.specs.Prelude.{◌≡◌, length};
    ghost use Rattle.conductor.specs.Hearing.{ConductorValue};

    ghost Value = { ConductorValue };

    ghost view = { λ c. record { sinks = c.sinks.items; told = c.told.items; lates = c.lates.items; sends = c.sends } };

    ghost invariant = { λ c. length c.told.items ≡ length c.sinks.items };
}

/// The progress of a client that was told nothing.
const NO_PROGRESS: Progress = Progress {
    state: None,
    eos: false,
    error: None,
    settings: None,
    port: None,
};

impl Conductor {
    /// A conductor that has sent nothing and was told nothing.
    pub fn new(alloc: Global, plan: &Plan) -> Result<Conductor, OutOfMemory>
        requires { length plan.now.parts ≤ 32 }
        ensures { IfOk result (λ conductor. conductor ≡ cast_of plan.now) }
    {
        let sinks = sinks_of(alloc, plan.parts())?;
        let told = vec![in alloc; NO_PROGRESS; plan.parts().len()]?;
        let lates = late_links(alloc, plan.parts(), plan.joints())?;
        Ok(Conductor {
            sinks,
            told,
            lates,
            sends: 0,
        })
    }

    /// How many components the play has.
    pub fn components(&self) -> usize
        ensures { result ≡ length self.now.told }
    {
        self.told.len()
    }

    /// How many states it has answered so far.
    pub fn sends(&self) -> u32
        ensures { result ≡ self.now.sends }
    {
        self.sends
    }

    /// What the play does next, by the components' views in script order. A view that is None tells nothing new.
    pub fn next(&mut self, views: &[Option<Progress>]) -> Phase
        requires { length views.now ≡ length self.old.told }
        ensures { Conducts (heard self.old views.now) result self.new }
    {
        self.hear(views);
        if has_failed(self.told.as_slice()) {
            return Phase::Failed;
        }
        if let Some(due) = self.change_due() {
            let component = self.change(due);
            return Phase::Change {
                component,
                step: due.step,
            };
        }
        if let Some(state) = self.send_due() {
            self.sends += 1;
            return Phase::Send(state);
        }
        if self.is_over() {
            Phase::Over
        } else {
            Phase::Wait
        }
    }

    /// Takes in the views.
    fn hear(&mut self, views: &[Option<Progress>])
        requires { length views.now ≡ length self.old.told }
        ensures { self.new ≡ heard self.old views.now }
    {
        hear_views(self.told.as_mut_slice(), views);
        hear_lates(self.told.as_slice(), self.lates.as_mut_slice());
    }

    /// Goes on with a change that is due, and answers its source.
    fn change(&mut self, due: Due) -> u32
        requires { IsDueChange self.old due }
        ensures { IsChange self.old result due.step self.new }
    {
        let late = self.lates[due.number];
        self.lates[due.number] = one_step_more(late);
        late.source
    }

    /// Whether links may be changed: every component has told Executing, and none was sent the second Idle.
    fn may_change(&self) -> bool
        ensures { result ≡ may_change self.now }
    {
        self.sends == 2 && all_told(State::Executing, self.told.as_slice())
    }

    fn change_due(&self) -> Option<Due>
        ensures some { IfSome result (IsDueChange self.now) }
        ensures none { IfNone result (NoChange self.now) }
    {
        if self.may_change() {
            step_due(self.told.as_slice(), self.lates.as_slice())
        } else {
            None
        }
    }

    fn send_due(&self) -> Option<State>
        ensures some { IfSome result (IsSendDue self.now) }
        ensures none { IfNone result (NoSend self.now) }
    {
        let state = next_state(self.sends)?;
        let is_told = last_told(self.sends, self.told.as_slice());
        let is_changing = has_half(self.lates.as_slice())
            || (self.may_change() && has_ready(self.told.as_slice(), self.lates.as_slice()));
        let is_running = self.sends == 2
            && !sinks_over(self.sinks.as_slice(), self.told.as_slice());
        if is_told && !is_changing && !is_running {
            Some(state)
        } else {
            None
        }
    }

    /// Whether all have told the last Loaded.
    fn is_over(&self) -> bool
        ensures { result ≡ is_over self.now }
    {
        self.sends == 4 && all_told(State::Loaded, self.told.as_slice())
    }
}
