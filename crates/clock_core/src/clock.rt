//! The clock: a call at a wall moment, and the next moment at which a request is fulfilled.

ghost use Rattle.std.specs.Prelude.{◌≡◌, ◌^◌, ◌≤◌, ◌++◌, ◌↔◌, List, length, drop, None, IfSome, IsNone};
ghost use Rattle.clock_core.specs.Calls.{GoesOn, reached};
ghost use Rattle.clock_core.specs.Clock.{opening, answer_of_call, after_call, notes_of_call, state_after, notes_of, refusal_of, HasMediaWithin};
ghost use Rattle.clock_core.specs.Next.{IsNextWall, HasNoNext};
ghost use Rattle.clock_core.specs.Running.{notes_in};
ghost use Rattle.clock_core.specs.declared.act.TimedAct.{TimedAct as Made};

use crate::due::{Requests, front_moment, fulfil_until};
use crate::motion::{motion_after, pace_of, scale_after};
use crate::queue::change;
use crate::refusing::refusal_of_act;
use crate::{ClockAct, ClockRefusal, Fulfilled, Motion};
use std::marker::Model;

/// A scale at which the media time goes on by one in a moment.
const NORMAL: u32 = 65_536;

/// A clock whose media time goes on from a start, with its outstanding requests.
#[derive(Drop)]
pub struct Clock {
    wall: u64,
    scale: u32,
    motion: Motion,
    requests: Requests,
}

impl Model for Clock {
    ghost use Rattle.clock_core.specs.Clock.{State};
    ghost use Rattle.clock_core.specs.Kept.{IsKept};

    ghost Value = { State };

    ghost view = { λ c. record { wall = c.wall; scale = c.scale; motion = c.motion; requests = c.requests.items } };

    ghost invariant = { λ c. IsKept (record { wall = c.wall; scale = c.scale; motion = c.motion; requests = c.requests.items }) };
}

impl Clock {
    /// A stopped clock at the wall moment 0, with the normal scale and no request.
    pub fn new() -> Clock
        ensures { result ≡ opening }
    {
        Clock {
            wall: 0,
            scale: NORMAL,
            motion: Motion::Stopped,
            requests: Requests::new(),
        }
    }

    /// Lets the moments up to `wall` pass, and then does the act. Puts the notes of the requests that were
    /// fulfilled at the front of `out`, and answers how many they are.
    pub fn call(
        &mut self,
        wall: u64,
        act: ClockAct,
        out: &mut [Fulfilled; 64],
    ) -> Result<u32, ClockRefusal>
        requires wall { wall ≤ 2 ^ 53 }
        requires media { HasMediaWithin act }
        ensures answer { result ≡ answer_of_call self.old wall act }
        ensures state { self.new ≡ after_call self.old wall act }
        ensures notes { out.new ≡ notes_of_call self.old wall act ++ drop (length (notes_of_call self.old wall act)) out.old }
        ensures law { (before : List Made) → self.old ≡ reached before → GoesOn before wall act self.new (notes_in result out.new) }
    {
        self.carry_out(wall, act, out)
    }

    /// The next wall moment at which a request is fulfilled, if only time passes.
    pub fn next_wall(&self) -> Option<u64>
        ensures next { IfSome result (IsNextWall self.now) }
        ensures within { IfSome result (λ wall. wall ≤ 2 ^ 53) }
        ensures none { IsNone result ↔ HasNoNext self.now }
    {
        front_moment(pace_of(self.motion, self.scale), self.requests.as_slice())
    }

    /// What a call does and answers, whatever calls were made before.
    fn carry_out(
        &mut self,
        wall: u64,
        act: ClockAct,
        out: &mut [Fulfilled; 64],
    ) -> Result<u32, ClockRefusal>
        requires wall { wall ≤ 2 ^ 53 }
        requires media { HasMediaWithin act }
        ensures answer { result ≡ answer_of_call self.old wall act }
        ensures state { self.new ≡ after_call self.old wall act }
        ensures notes { out.new ≡ notes_of_call self.old wall act ++ drop (length (notes_of_call self.old wall act)) out.old }
    {
        if wall < self.wall {
            return Err(ClockRefusal::Backwards { last: self.wall });
        }
        match refusal_of_act(self.motion, &self.requests, act) {
            Some(refusal) => Err(refusal),
            None => Ok(self.accept(wall, act, out)),
        }
    }

    /// A call that isn't refused.
    fn accept(&mut self, wall: u64, act: ClockAct, out: &mut [Fulfilled; 64]) -> u32
        requires wall { wall ≤ 2 ^ 53 }
        requires media { HasMediaWithin act }
        requires accepted { refusal_of self.old wall act ≡ None }
        ensures answer { result ≡ length (notes_of self.old wall act) }
        ensures state { self.new ≡ state_after self.old wall act }
        ensures notes { out.new ≡ notes_of self.old wall act ++ drop (length (notes_of self.old wall act)) out.old }
    {
        let passing = pace_of(self.motion, self.scale);
        let passed = fulfil_until(&mut self.requests, passing, self.wall, wall, out, 0);
        self.motion = motion_after(act, wall, self.scale, self.motion);
        self.scale = scale_after(act, self.scale);
        change(&mut self.requests, act);
        self.wall = wall;
        let pace = pace_of(self.motion, self.scale);
        fulfil_until(&mut self.requests, pace, wall, wall, out, passed) as u32
    }
}
