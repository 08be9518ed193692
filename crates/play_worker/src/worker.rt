//! A worker.

ghost use Rattle.std.specs.Prelude.{◌≡◌, ◌≤◌, [], List, None};
ghost use Rattle.graph_acts.specs.Plain.{sight_of};
ghost use Rattle.board.specs.declared.boards.Board.{Board};
ghost use Rattle.board.specs.Boards.{own_calls};
ghost use Rattle.work_signs.specs.declared.seat.Seat.{Seat};
ghost use Rattle.pass_book.specs.Books.{IsBook};
ghost use Rattle.play_worker.specs.Counts.{TellsZeros};
ghost use Rattle.play_worker.specs.Workers.{IsWorker};

use crate::failure::Failure;
use crate::gate::Gate;
use note_queues::Client;
use outside_io::{Sink, Source};
use pass_book::Book;

/// A pass with its lines, and a gate. It can't be let go, so that its pass is met.
pub struct Worker<S: Source, K: Sink, C: Client, G> {
    pub(crate) book: Book<S, K, C>,
    pub(crate) gate: G,
    /// By place, the bell that was heard before a visit at which nothing could be done.
    pub(crate) heard: [u64; 32],
    /// Of its steps that failed the one that is told.
    pub(crate) worst: Option<Failure>,
}

impl<S: Source, K: Sink, C: Client, G: Gate> Worker<S, K, C, G> {
    /// A worker whose pass made no call yet.
    #[tactic(auto, using(crate::proofs::Keeping::worker_begins))]
    pub fn new(book: Book<S, K, C>, gate: G) -> Worker<S, K, C, G>
        ensures parts { (result.book ≡ book) × (result.gate ≡ gate) × (result.worst ≡ None) }
        ensures worker { (b : Board S K C) (seats : List Seat) → IsBook b seats book → own_calls book.pass ≡ [] → TellsZeros (G.counts gate) → 1 ≤ book.number → book.number ≤ 8
            → IsWorker G.counts (sight_of C.Client S.Source K.Sink) b seats result }
    {
        Worker {
            book,
            gate,
            // No bell rang so often.
            heard: [u64::MAX; 32],
            worst: None,
        }
    }

    /// What is left of it: its book, its gate, and of its steps that failed the one that is told.
    pub fn into_parts(self) -> (Book<S, K, C>, G, Option<Failure>)
        ensures { (result.0 ≡ self.book) × (result.1 ≡ self.gate) × (result.2 ≡ self.worst) }
    {
        let Worker {
            book,
            gate,
            heard: _,
            worst,
        } = self;
        (book, gate, worst)
    }
}
