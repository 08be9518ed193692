//! A pass is split off for each gate, and the first one conducts.

ghost use Rattle.std.specs.Prelude.{◌≡◌, ◌≤◌, ◌+◌, [], List, All, length, vec_capacity};
ghost use Rattle.conductor.specs.Casting.{cast_of};
ghost use Rattle.play_forms.specs.Plans.{PlanValue};
ghost use Rattle.graph_acts.specs.Plain.{sight_of};
ghost use Rattle.board.specs.declared.boards.Board.{Board};
ghost use Rattle.board.specs.Boards.{IsOf, pass_view};
ghost use Rattle.work_signs.specs.declared.seat.Seat.{Seat};
ghost use Rattle.pass_book.specs.Books.{IsBook};
ghost use Rattle.play_worker.specs.Counts.{TellsZeros};
ghost use Rattle.play_workers.specs.Hands.{AreThreads, AreWorkers, CanStart};
ghost use Rattle.play_workers.specs.Rooms.{IsNewKit};
ghost use Rattle.play_workers.specs.Wholes.{IsRoot};

use crate::hand::Hand;
use crate::kit::Kit;
use board::{Board, BoardPass};
use conducting_thread::ConductingPass;
use conductor::Conductor;
use note_queues::Client;
use outside_io::{Sink, Source};
use pass_book::Book;
use play_worker::{Gate, Worker};

/// The book of a pass that made no call.
fn open_book<S: Source, K: Sink, C: Client>(
    pass: BoardPass<S, K, C>,
    number: u8,
    kit: Kit<S, K, C>,
) -> Book<S, K, C>
    requires kit { IsNewKit kit }
    ensures parts { (result.pass ≡ pass) × (result.number ≡ number) }
    ensures book { (b : Board S K C) (seats : List Seat) → IsOf b pass → (pass_view pass).number ≡ number → (pass_view pass).seen ≡ [] → (pass_view pass).mine ≡ [] → IsBook b seats result }
{
    let Kit { log, row } = kit;
    Book::new(pass, number, log, row)
}

/// A worker for each gate, in their order, with the numbers from 1 on. There is room for them.
fn hire<S: Source, K: Sink, C: Client, G: Gate>(
    board: &Board<S, K, C>,
    root: &mut BoardPass<S, K, C>,
    gates: &mut Vec<G>,
    kits: &mut Vec<Kit<S, K, C>>,
    hands: &mut Vec<Hand<S, K, C, G>>,
)
    requires root { IsRoot board.now root.old × ((pass_view root.old).splits ≡ 0) }
    requires gates { (length gates.old.items ≤ 8) × All (λ g. TellsZeros (G.counts g)) gates.old.items }
    requires kits { All IsNewKit kits.old.items × (length kits.old.items ≡ length gates.old.items + 1) }
    requires hands { (hands.old.items ≡ []) × (length gates.old.items + 1 ≤ vec_capacity hands.old) }
    ensures root { IsRoot board.now root.new × ((pass_view root.new).splits ≡ length gates.old.items) }
    ensures gates { (gates.new.items ≡ []) × (vec_capacity gates.new ≡ vec_capacity gates.old) }
    ensures kits { All IsNewKit kits.new.items × (length kits.new.items ≡ 1) }
    ensures workers { (seats : List Seat) → AreWorkers G.counts (sight_of C.Client S.Source K.Sink) board.now seats 1 hands.new.items }
    ensures hands { (length hands.new.items ≡ length gates.old.items) × (vec_capacity hands.new ≡ vec_capacity hands.old) }
{
    let mut number = 0u8;
    while !gates.is_empty() {
        let gate = gates.remove(0);
        let kit = kits.remove(0);
        let pass = board.split(root);
        number += 1;
        let book = open_book(pass, number, kit);
        hands.push_reserved(Hand::Works(Worker::new(book, gate)));
    }
}

/// The threads of a play: a worker for each gate, and behind them the one who conducts. There is room for them.
pub(crate) fn start<S: Source, K: Sink, C: Client, G: Gate>(
    board: &Board<S, K, C>,
    mut root: BoardPass<S, K, C>,
    gates: &mut Vec<G>,
    mut kits: Vec<Kit<S, K, C>>,
    mut hands: Vec<Hand<S, K, C, G>>,
    conductor: Conductor,
) -> Vec<Hand<S, K, C, G>>
    requires root { IsRoot board.now root × ((pass_view root).splits ≡ 0) }
    requires gates { (length gates.old.items ≤ 8) × All (λ g. TellsZeros (G.counts g)) gates.old.items }
    requires kits { All IsNewKit kits.items × (length kits.items ≡ length gates.old.items + 1) }
    requires hands { (hands.items ≡ []) × (length gates.old.items + 1 ≤ vec_capacity hands) }
    ensures gates { (gates.new.items ≡ []) × (vec_capacity gates.new ≡ vec_capacity gates.old) }
    ensures threads { (plan : PlanValue) (seats : List Seat) → conductor ≡ cast_of plan → AreThreads G.counts (sight_of C.Client S.Source K.Sink) board.now plan seats 1 result.items }
    ensures start { All CanStart result.items }
    ensures many { length result.items ≡ length gates.old.items + 1 }
{
    hire(board, &mut root, gates, &mut kits, &mut hands);
    let kit = kits.remove(0);
    kits.destroy_empty();
    let pass = ConductingPass::new(open_book(root, 0, kit), conductor);
    hands.push_reserved(Hand::Conducts(pass));
    hands
}
