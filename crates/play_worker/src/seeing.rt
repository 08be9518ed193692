//! What a worker sees of the end of a play.

ghost use Rattle.std.specs.Prelude.{◌≡◌, ◌≤◌, length, true, Option, Result};
ghost use Rattle.omx_types.specs.declared.error.OmxError.{OmxError};
ghost use Rattle.il_machine.specs.declared.answer.Progress.{Progress};
ghost use Rattle.graph_acts.specs.declared.act.Act.TheVariants as asks;
ghost use Rattle.graph_acts.specs.declared.act.Reply.TheVariants as replies;
ghost use Rattle.graph_acts.specs.Plain.{sight_of};
ghost use Rattle.pass_book.specs.Books.{Made};
ghost use Rattle.pass_book.specs.Seats.{IsSeatOf};
ghost use Rattle.play_worker.specs.Ending.{HasSeenEnd, Shows};
ghost use Rattle.play_worker.specs.Workers.{IsWorker, AreNumbered};

use crate::gate::Gate;
use crate::worker::Worker;
use board::Board;
use il_machine::Progress;
use note_queues::Client;
use omx_types::{OmxError, State};
use outside_io::{Sink, Source};
use std::sync::Wait;
use work_signs::Seat;

/// What a component has told, as far as the end of a play is seen by it.
#[derive(Clone, Copy)]
enum Seen {
    Loaded,
    Failed,
    Other,
}

#[tactic(auto, using(crate::proofs::Ending::shows_loaded, crate::proofs::Ending::shows_failed, crate::proofs::Ending::shows_other))]
fn seen_in(answer: Result<Option<Progress>, OmxError>) -> Seen
    ensures { Shows answer result }
{
    match answer {
        Ok(Some(told)) if told.error.is_some() => Seen::Failed,
        Ok(Some(told)) if matches!(told.state, Some(State::Loaded)) => Seen::Loaded,
        _ => Seen::Other,
    }
}

impl<S: Source, K: Sink, C: Client, G: Gate> Worker<S, K, C, G> {
    #[tactic(auto, using(crate::proofs::Keeping::worker_moves, crate::proofs::Keeping::seated))]
    fn sees<R: Wait>(&mut self, rt: &R, board: &Board<S, K, C>, seats: &[Seat], seat: &Seat) -> Seen
        requires worker { IsWorker G.counts (sight_of C.Client S.Source K.Sink) board.now seats.now self.old }
        requires seat { IsSeatOf seats.now seat.now }
        ensures worker { IsWorker G.counts (sight_of C.Client S.Source K.Sink) board.now seats.now self.new }
        ensures looked { (answer : Result (Option Progress) OmxError) × Made self.old.book (asks.Progress seat.now.handle) (replies.Progress answer) self.new.book × Shows answer result }
        ensures number { self.new.book.number ≡ self.old.book.number }
    {
        let h = seat.handle;
        seen_in(self.book.progress(rt, board, seats, h))
    }

    /// Whether each component was seen to have told Loaded, or one to have told an error.
    #[tactic(auto, using(crate::proofs::Keeping::numbered_at))]
    pub(crate) fn sees_end<R: Wait>(
        &mut self,
        rt: &R,
        board: &Board<S, K, C>,
        seats: &[Seat],
    ) -> bool
        requires worker { IsWorker G.counts (sight_of C.Client S.Source K.Sink) board.now seats.now self.old }
        requires seats { AreNumbered seats.now }
        ensures worker { IsWorker G.counts (sight_of C.Client S.Source K.Sink) board.now seats.now self.new }
        ensures ended { result ≡ true → HasSeenEnd seats.now self.new.book }
        ensures number { self.new.book.number ≡ self.old.book.number }
    {
        let mut all_loaded = true;
        for place in 0..seats.len() {
            match self.sees(rt, board, seats, &seats[place]) {
                Seen::Loaded => {}
                Seen::Failed => return true,
                Seen::Other => all_loaded = false,
            }
        }
        all_loaded
    }
}
