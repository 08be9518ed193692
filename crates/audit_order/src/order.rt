//! The order of what a client asks for: which act may come next.

ghost use Rattle.std.specs.Prelude.{◌≡◌, ◌↔◌, ◌<◌, ◌≤◌, ℕ, length, IfNone, IfSome, IsTrue, true, false};
ghost use Rattle.audit_order.specs.Steps.{Admits, AreLatesChanged, BeginsChange, BeginsSend, CanGoBack, ChangesOn, IsChangedAt, IsComplete, IsRested, MayChange, OrderValue, SendsOn, is_begun, is_sending, nothing_asked};

use crate::ends::link_of;
use crate::lines::{is_change_act, is_send};
use crate::steps::{
    are_sinks_over, both_disabled, has_settings, is_changing, is_late_at, is_over, last_told,
    state_sent,
};
use act_text::TextAct;
use conductor::all_told;
use il_machine::Progress;
use omx_types::State;
use std::marker::Model;
use stream_plan::Plan;

/// The change of a late source's link, by the source's place, and how many of its eight acts are made.
#[derive(Clone, Copy)]
pub struct Change {
    pub source: u32,
    pub made: u32,
}

/// How much of what a client asks for was asked.
#[derive(Drop)]
pub struct Order {
    sends: u32,
    sent: u32,
    change: Option<Change>,
    changed: [bool; 32],
}

impl Model for Order {
    ghost use Rattle.std.specs.Prelude.{◌≤◌};
    ghost use Rattle.audit_order.specs.Steps.{OrderValue};

    ghost Value = { OrderValue };

    ghost view = { λ x. record { sends = x.sends; sent = x.sent; change = x.change; changed = x.changed } };

    ghost invariant = { λ x. x.sends ≤ 4 };
}

impl Order {
    /// Nothing was asked.
    pub fn new() -> Order
        ensures { result ≡ nothing_asked }
    {
        Order {
            sends: 0,
            sent: 0,
            change: None,
            changed: [false; 32],
        }
    }

    fn has_changed(&self, place: u32) -> bool
        ensures { result ≡ is_begun self.now.changed place }
    {
        match self.changed.get(place as usize) {
            Some(begun) => *begun,
            None => false,
        }
    }

    fn is_sending(&self, plan: &Plan) -> bool
        requires { length plan.now.parts ≤ 32 }
        ensures { result ≡ is_sending (length plan.now.parts) self.now }
    {
        self.sends > 0 && (self.sent as usize) < plan.parts().len()
    }

    /// Whether the component at the place is no late source, or its change was begun.
    fn is_changed_at(&self, plan: &Plan, place: u32) -> bool
        ensures yes { result ≡ true → IsChangedAt plan.now self.now.changed place }
        ensures no { result ≡ false → IsChangedAt plan.now self.now.changed place → ⊥ }
    {
        !is_late_at(plan, place) || self.has_changed(place)
    }

    fn are_lates_changed(&self, plan: &Plan) -> bool
        requires { length plan.now.parts ≤ 32 }
        ensures yes { result ≡ true → AreLatesChanged plan.now self.now.changed }
        ensures no { result ≡ false → AreLatesChanged plan.now self.now.changed → ⊥ }
    {
        for place in 0..plan.parts().len() as u32 {
            if !self.is_changed_at(plan, place) {
                return false;
            }
        }
        true
    }

    fn is_rested(&self, plan: &Plan, told: &[Progress]) -> bool
        requires { length plan.now.parts ≤ 32 }
        ensures yes { result ≡ true → IsRested plan.now told.now self.now }
        ensures no { result ≡ false → IsRested plan.now told.now self.now → ⊥ }
    {
        !self.is_sending(plan) && !is_changing(self.change) && is_over(plan, told, self.change)
    }

    /// The late source whose change the act may begin.
    fn source_of(&self, plan: &Plan, told: &[Progress], act: &TextAct) -> Option<u32>
        requires { length plan.now.parts ≤ 32 }
        ensures some { IfSome result (λ source. MayChange plan.now told.now self.now.changed source act.now) }
        ensures below { IfSome result (λ source. source < 32) }
        ensures none { IfNone result ((source : ℕ) → MayChange plan.now told.now self.now.changed source act.now → ⊥) }
    {
        for source in 0..plan.parts().len() as u32 {
            if self.may_change(plan, told, source, act) {
                return Some(source);
            }
        }
        None
    }

    fn may_change(&self, plan: &Plan, told: &[Progress], source: u32, act: &TextAct) -> bool
        requires { source < length plan.now.parts }
        ensures yes { result ≡ true → MayChange plan.now told.now self.now.changed source act.now }
        ensures no { result ≡ false → MayChange plan.now told.now self.now.changed source act.now → ⊥ }
    {
        if !is_late_at(plan, source) || self.has_changed(source) || !has_settings(told, source) {
            return false;
        }
        match link_of(plan, source) {
            Some(ends) => is_change_act(act, &ends, 0),
            None => false,
        }
    }

    fn send_on(&mut self, plan: &Plan, act: &TextAct) -> bool
        requires { length plan.now.parts ≤ 32 }
        ensures yes { result ≡ true → SendsOn plan.now self.old act.now self.new }
        ensures no { result ≡ false → (self.new ≡ self.old) × ((next : OrderValue) → SendsOn plan.now self.old act.now next → ⊥) }
    {
        if !self.is_sending(plan) {
            return false;
        }
        let part = &plan.parts()[self.sent as usize];
        if !is_send(act, &part.name, state_sent(self.sends)) {
            return false;
        }
        self.sent += 1;
        true
    }

    fn change_on(&mut self, plan: &Plan, told: &[Progress], act: &TextAct) -> bool
        requires { length plan.now.parts ≤ 32 }
        ensures yes { result ≡ true → ChangesOn plan.now told.now self.old act.now self.new }
        ensures no { result ≡ false → (self.new ≡ self.old) × ((next : OrderValue) → ChangesOn plan.now told.now self.old act.now next → ⊥) }
    {
        if self.is_sending(plan) || !is_changing(self.change) {
            return false;
        }
        let Some(change) = self.change else {
            return false;
        };
        let Some(ends) = link_of(plan, change.source) else {
            return false;
        };
        if change.made == 2 && !both_disabled(&ends, told, change.source) {
            return false;
        }
        if !is_change_act(act, &ends, change.made) {
            return false;
        }
        self.change = Some(Change {
            source: change.source,
            made: change.made + 1,
        });
        true
    }

    fn begin_change(&mut self, plan: &Plan, told: &[Progress], act: &TextAct) -> bool
        requires { length plan.now.parts ≤ 32 }
        ensures yes { result ≡ true → BeginsChange plan.now told.now self.old act.now self.new }
        ensures no { result ≡ false → (self.new ≡ self.old) × ((next : OrderValue) → BeginsChange plan.now told.now self.old act.now next → ⊥) }
    {
        if !self.is_rested(plan, told) || self.sends != 2 || !all_told(State::Executing, told) {
            return false;
        }
        let Some(source) = self.source_of(plan, told, act) else {
            return false;
        };
        self.change = Some(Change { source, made: 1 });
        self.changed[source as usize] = true;
        true
    }

    fn can_go_back(&self, plan: &Plan, told: &[Progress]) -> bool
        requires { length plan.now.parts ≤ 32 }
        ensures yes { result ≡ true → CanGoBack plan.now told.now self.now.changed }
        ensures no { result ≡ false → CanGoBack plan.now told.now self.now.changed → ⊥ }
    {
        self.are_lates_changed(plan) && are_sinks_over(plan, told)
    }

    fn begin_send(&mut self, plan: &Plan, told: &[Progress], act: &TextAct) -> bool
        requires { length plan.now.parts ≤ 32 }
        ensures yes { result ≡ true → BeginsSend plan.now told.now self.old act.now self.new }
        ensures no { result ≡ false → (self.new ≡ self.old) × ((next : OrderValue) → BeginsSend plan.now told.now self.old act.now next → ⊥) }
    {
        if !self.is_rested(plan, told) || self.sends >= 4 || !last_told(self.sends, told) {
            return false;
        }
        if self.sends == 2 && !self.can_go_back(plan, told) {
            return false;
        }
        let Some(part) = plan.parts().get(0) else {
            return false;
        };
        if !is_send(act, &part.name, state_sent(self.sends + 1)) {
            return false;
        }
        self.sends += 1;
        self.sent = 1;
        self.change = None;
        true
    }

    /// Whether the act may come next, where so much was told. It is then asked.
    pub fn admit(&mut self, plan: &Plan, told: &[Progress], act: &TextAct) -> bool
        requires { length plan.now.parts ≤ 32 }
        ensures yes { result ≡ true → Admits plan.now told.now self.old act.now self.new }
        ensures no { result ≡ false → (self.new ≡ self.old) × ((next : OrderValue) → Admits plan.now told.now self.old act.now next → ⊥) }
    {
        if self.send_on(plan, act) {
            return true;
        }
        if self.change_on(plan, told, act) {
            return true;
        }
        if self.begin_change(plan, told, act) {
            return true;
        }
        self.begin_send(plan, told, act)
    }

    /// Whether all was asked.
    pub fn is_complete(&self, plan: &Plan) -> bool
        requires { length plan.now.parts ≤ 32 }
        ensures { IsTrue result ↔ IsComplete plan.now self.now }
    {
        plan.parts().is_empty() || (self.sends == 4 && !self.is_sending(plan))
    }
}
