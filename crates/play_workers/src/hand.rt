//! A thread of a play.

ghost use Rattle.std.specs.Prelude.{◌≡◌, ◌≤◌, length};
ghost use Rattle.play_forms.specs.Plans.{IsValid};
ghost use Rattle.graph_acts.specs.Plain.{sight_of};
ghost use Rattle.conducting_thread.specs.Seating.{AreSeatsFor};
ghost use Rattle.play_workers.specs.declared.hand.Hand.TheVariants.{Conducts, Works};
ghost use Rattle.play_workers.specs.Hands.{CanStart, HasStopped, IsConductor, IsHand, IsWorks, StaysHand};

use board::Board;
use conducting_thread::ConductingPass;
use note_queues::Client;
use outside_io::{Sink, Source};
use play_worker::{Gate, Worker};
use std::sync::Wait;
use stream_plan::Plan;
use work_signs::{Seat, Signs};

/// A worker, or the one who conducts.
pub(crate) enum Hand<S: Source, K: Sink, C: Client, G> {
    Works(Worker<S, K, C, G>),
    Conducts(ConductingPass<S, K, C>),
}

impl<S: Source, K: Sink, C: Client, G: Gate> Hand<S, K, C, G> {
    pub(crate) fn run<R: Wait>(
        &mut self,
        rt: &R,
        board: &Board<S, K, C>,
        signs: &Signs,
        plan: &Plan,
        seats: &[Seat],
    )
        requires hand { IsHand G.counts (sight_of C.Client S.Source K.Sink) board.now plan.now seats.now self.old }
        requires starts { CanStart self.old }
        requires valid { IsValid plan.now }
        requires seats { AreSeatsFor plan.now seats.now × (length seats.now ≤ 32) }
        ensures hand { IsHand G.counts (sight_of C.Client S.Source K.Sink) board.now plan.now seats.now self.new }
        ensures stays { StaysHand self.old self.new }
        ensures stops { HasStopped self.new }
    {
        match self {
            Hand::Works(worker) => {
                let _ = worker.work(rt, board, seats, signs);
            }
            Hand::Conducts(pass) => pass.conduct(rt, board, signs, plan, seats),
        }
    }
}

impl<S: Source, K: Sink, C: Client, G> Hand<S, K, C, G> {
    pub(crate) fn into_worker(self) -> Worker<S, K, C, G>
        requires { IsWorks self }
        ensures { self ≡ Works result }
    {
        match self {
            Hand::Works(worker) => worker,
            Hand::Conducts(_pass) => unreachable!(),
        }
    }

    pub(crate) fn into_conductor(self) -> ConductingPass<S, K, C>
        requires { IsConductor self }
        ensures { self ≡ Conducts result }
    {
        match self {
            Hand::Conducts(pass) => pass,
            Hand::Works(_worker) => unreachable!(),
        }
    }
}
