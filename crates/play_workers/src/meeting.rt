//! Every pass is met, and what it leaves is kept.

ghost use Rattle.std.specs.Prelude.{◌≡◌, ◌≤◌, ◌+◌, [], None, length, vec_capacity};
ghost use Rattle.graph_acts.specs.Plain.{sight_of};
ghost use Rattle.board.specs.Boards.{pass_view};
ghost use Rattle.play_workers.specs.Wholes.{Gathers};

use crate::hand::Hand;
use board::{Board, BoardPass};
use note_queues::Client;
use outside_io::{Sink, Source};
use play_log::PassLog;
use play_worker::{Failure, Gate};
use work_signs::Seat;

/// Meets each worker's pass, in the order of their numbers, and keeps its page and its gate, for which there is room. Answers which of the
/// steps that failed is told.
pub(crate) fn meet_all<S: Source, K: Sink, C: Client, G: Gate>(
    board: &Board<S, K, C>,
    root: &mut BoardPass<S, K, C>,
    _seats: &[Seat],
    mut hands: Vec<Hand<S, K, C, G>>,
    pages: &mut Vec<PassLog>,
    gates: &mut Vec<G>,
) -> Option<Failure>
    requires gathers { Gathers G.counts (sight_of C.Client S.Source K.Sink) board.now _seats.now root.old hands.items pages.old.items gates.old.items None }
    requires room { (length pages.old.items + length hands.items ≤ vec_capacity pages.old) × (length gates.old.items + length hands.items ≤ vec_capacity gates.old) }
    ensures gathers { Gathers G.counts (sight_of C.Client S.Source K.Sink) board.now _seats.now root.new [] pages.new.items gates.new.items result }
    ensures same { ((pass_view root.new).mine ≡ (pass_view root.old).mine) × ((pass_view root.new).splits ≡ (pass_view root.old).splits) }
{
    let mut worst = None;
    while !hands.is_empty() {
        let worker = hands.remove(0).into_worker();
        let (book, gate, failed) = worker.into_parts();
        let (pass, page, row) = book.into_parts();
        board.meet(root, pass);
        row.end();
        pages.push_reserved(page);
        gates.push_reserved(gate);
        worst = Failure::worse(worst, failed);
    }
    hands.destroy_empty();
    worst
}
