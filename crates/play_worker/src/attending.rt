//! A worker's visits at a component.

ghost use Rattle.std.specs.Prelude.{◌≡◌, ◌<◌, ◌≤◌, length};
ghost use Rattle.graph_acts.specs.Plain.{sight_of};
ghost use Rattle.pass_book.specs.Seats.{IsSeatOf};
ghost use Rattle.play_worker.specs.Workers.{IsWorker, AreNumbered};

use crate::gate::Gate;
use crate::moving::tend;
use crate::worker::Worker;
use board::Board;
use note_queues::Client;
use outside_io::{Sink, Source};
use std::sync::Wait;
use work_signs::{Seat, Signs};

impl<S: Source, K: Sink, C: Client, G: Gate> Worker<S, K, C, G> {
    /// All that can be done at a component. Whether anything was.
    #[tactic(auto, using(crate::proofs::Keeping::worker_moves))]
    fn attend<R: Wait>(
        &mut self,
        rt: &R,
        board: &Board<S, K, C>,
        seats: &[Seat],
        signs: &Signs,
        seat: &Seat,
        all: bool,
    ) -> bool
        requires worker { IsWorker G.counts (sight_of C.Client S.Source K.Sink) board.now seats.now self.old }
        requires seat { IsSeatOf seats.now seat.now }
        requires few { length seats.now ≤ 32 }
        ensures worker { IsWorker G.counts (sight_of C.Client S.Source K.Sink) board.now seats.now self.new }
        ensures number { self.new.book.number ≡ self.old.book.number }
    {
        let tended = tend(rt, board, seats, signs, &mut self.book, seat, all);
        let stepped = self.step(rt, board, seats, seat);
        tended | stepped
    }

    /// A visit at the component of the place, unless another worker is there, or nothing happened since the last visit, at which nothing
    /// could be done. Whether anything was done.
    #[tactic(auto, using(crate::proofs::Keeping::numbered_at))]
    pub(crate) fn visit<R: Wait>(
        &mut self,
        rt: &R,
        board: &Board<S, K, C>,
        seats: &[Seat],
        signs: &Signs,
        place: usize,
        all: bool,
    ) -> bool
        requires worker { IsWorker G.counts (sight_of C.Client S.Source K.Sink) board.now seats.now self.old }
        requires seats { AreNumbered seats.now }
        requires few { length seats.now ≤ 32 }
        requires there { place < length seats.now }
        ensures worker { IsWorker G.counts (sight_of C.Client S.Source K.Sink) board.now seats.now self.new }
        ensures number { self.new.book.number ≡ self.old.book.number }
    {
        let seat = &seats[place];
        let near = seat.near;
        let heard = self.heard[place];
        // The bell is looked at before the first act, so that what happens beside the visit rings behind it.
        let bell = signs.bell(place);
        if !all && bell == heard {
            return false;
        }
        // Two workers at one component would find little to do.
        let came = signs.enter(place);
        if !all && !came {
            return false;
        }
        let did = self.attend(rt, board, seats, signs, seat, all);
        if came {
            signs.leave(place);
        }
        if did {
            signs.ring(place, near);
        } else {
            self.heard[place] = bell;
        }
        did
    }
}
