//! A worker's rounds over the components.

ghost use Rattle.std.specs.Prelude.{◌≡◌, ◌<◌, ◌≤◌, IfOk, length, true};
ghost use Rattle.graph_acts.specs.Plain.{sight_of};
ghost use Rattle.play_worker.specs.Ending.{HasSeenEnd};
ghost use Rattle.play_worker.specs.Workers.{IsWorker, AreNumbered};

use crate::gate::Gate;
use crate::stopping::{Stopped, stop_seen};
use crate::worker::Worker;
use board::Board;
use note_queues::Client;
use outside_io::{Sink, Source};
use std::sync::Wait;
use work_signs::{Seat, Signs};

/// How often a worker that found nothing looks at the signs before it asks anew.
const LOOKS: u32 = 1000;

/// The place that comes so many behind the first, in a round over so many places.
fn place_from(first: u8, step: usize, places: usize) -> usize
    requires { (step < places) × (places ≤ 32) }
    ensures { result < places }
{
    (usize::from(first) + step) % places
}

impl<S: Source, K: Sink, C: Client, G: Gate> Worker<S, K, C, G> {
    /// A round over the components, which each worker begins at another: over all, or over those at which something happened since nothing
    /// could be done there. Whether anything was done.
    fn round<R: Wait>(
        &mut self,
        rt: &R,
        board: &Board<S, K, C>,
        seats: &[Seat],
        signs: &Signs,
        all: bool,
    ) -> bool
        requires worker { IsWorker G.counts (sight_of C.Client S.Source K.Sink) board.now seats.now self.old }
        requires seats { AreNumbered seats.now }
        requires few { length seats.now ≤ 32 }
        ensures worker { IsWorker G.counts (sight_of C.Client S.Source K.Sink) board.now seats.now self.new }
        ensures number { self.new.book.number ≡ self.old.book.number }
    {
        let first = self.book.number();
        let mut did = false;
        for step in 0..seats.len() {
            let place = place_from(first, step, seats.len());
            let visited = self.visit(rt, board, seats, signs, place, all);
            did = did | visited;
        }
        did
    }

    /// A round, and one over all components where nobody did anything for a while. Whether the end of the play was then seen.
    fn turn<R: Wait>(
        &mut self,
        rt: &R,
        board: &Board<S, K, C>,
        seats: &[Seat],
        signs: &Signs,
    ) -> bool
        requires worker { IsWorker G.counts (sight_of C.Client S.Source K.Sink) board.now seats.now self.old }
        requires seats { AreNumbered seats.now }
        requires few { length seats.now ≤ 32 }
        ensures worker { IsWorker G.counts (sight_of C.Client S.Source K.Sink) board.now seats.now self.new }
        ensures ended { result ≡ true → HasSeenEnd seats.now self.new.book }
        ensures number { self.new.book.number ≡ self.old.book.number }
    {
        let heard = signs.rings();
        let did = self.round(rt, board, seats, signs, false);
        if signs.is_over() && self.sees_end(rt, board, seats) {
            return true;
        }
        if !did && !signs.rest(heard, LOOKS) {
            self.round(rt, board, seats, signs, true);
        }
        false
    }

    /// Rounds until the end of the play was seen, or that a thread wanted memory. A worker whose log wants memory says so to the others.
    pub fn work<R: Wait>(
        &mut self,
        rt: &R,
        board: &Board<S, K, C>,
        seats: &[Seat],
        signs: &Signs,
    ) -> Result<(), Stopped>
        requires worker { IsWorker G.counts (sight_of C.Client S.Source K.Sink) board.now seats.now self.old }
        requires seats { AreNumbered seats.now }
        requires few { length seats.now ≤ 32 }
        ensures worker { IsWorker G.counts (sight_of C.Client S.Source K.Sink) board.now seats.now self.new }
        ensures ended { IfOk result (λ _. HasSeenEnd seats.now self.new.book) }
        ensures number { self.new.book.number ≡ self.old.book.number }
    {
        for _ in rt.forever() {
            if let Some(stopped) = stop_seen(signs) {
                return Err(stopped);
            }
            let ended = self.turn(rt, board, seats, signs);
            if !self.book.is_whole() {
                signs.stop();
            }
            if ended {
                return Ok(());
            }
        }
        unreachable!()
    }
}
