//! What a worker does at a component but a step of its part.

ghost use Rattle.std.specs.Prelude.{◌≡◌, []};
ghost use Rattle.board.specs.Boards.{clients};
ghost use Rattle.pass_book.specs.Books.{IsBook};
ghost use Rattle.pass_book.specs.Moves.{Moves};
ghost use Rattle.pass_book.specs.Seats.{IsSeatOf};

use board::Board;
use note_queues::Client;
use outside_io::{Sink, Source};
use pass_book::Book;
use std::sync::Wait;
use work_signs::{Seat, Signs};

/// Each input gets or loses a header, as the component's state wants it: the input of a link supplies it. Whether one did.
#[tactic(auto, using(pass_book::proofs::Keeping::moves_on, pass_book::proofs::Keeping::moves_itself, crate::proofs::Keeping::seated_at))]
fn supply_all<S: Source, K: Sink, C: Client, R: Wait>(
    rt: &R,
    board: &Board<S, K, C>,
    seats: &[Seat],
    book: &mut Book<S, K, C>,
    seat: &Seat,
) -> bool
    requires book { IsBook board.now seats.now book.old }
    requires seat { IsSeatOf seats.now seat.now }
    ensures { Moves C.progress board.now seats.now book.old book.new }
{
    let h = seat.handle;
    let inputs = seat.inputs.min(seat.ports);
    let mut did = false;
    for port in 0..inputs {
        let supplied = book.supply(rt, board, seats, h, port);
        let released = book.release(rt, board, seats, h, port);
        did = did | supplied | released;
    }
    did
}

/// Each input hands a header over, and each output one back. Whether one did.
#[tactic(auto, using(pass_book::proofs::Keeping::moves_on, pass_book::proofs::Keeping::moves_itself, crate::proofs::Keeping::seated_at))]
fn hand_all<S: Source, K: Sink, C: Client, R: Wait>(
    rt: &R,
    board: &Board<S, K, C>,
    seats: &[Seat],
    book: &mut Book<S, K, C>,
    seat: &Seat,
) -> bool
    requires book { IsBook board.now seats.now book.old }
    requires seat { IsSeatOf seats.now seat.now }
    ensures { Moves C.progress board.now seats.now book.old book.new }
{
    let h = seat.handle;
    let inputs = seat.inputs;
    let ports = seat.ports;
    let mut did = false;
    for port in 0..ports {
        let handed = if port < inputs {
            book.hand_over(rt, board, seats, h, port)
        } else {
            book.hand_back(rt, board, seats, h, port)
        };
        did = did | handed;
    }
    did
}

/// The component's oldest note is told and its oldest command run, and its inputs get or lose headers. Whether anything was done.
#[tactic(auto, using(pass_book::proofs::Keeping::moves_on, pass_book::proofs::Keeping::moves_itself, crate::proofs::Keeping::seated))]
fn bring_on<S: Source, K: Sink, C: Client, R: Wait>(
    rt: &R,
    board: &Board<S, K, C>,
    seats: &[Seat],
    signs: &Signs,
    book: &mut Book<S, K, C>,
    seat: &Seat,
) -> bool
    requires book { IsBook board.now seats.now book.old }
    requires seat { IsSeatOf seats.now seat.now }
    requires none { clients C.progress book.old.pass ≡ [] }
    ensures { Moves C.progress board.now seats.now book.old book.new }
{
    let h = seat.handle;
    let noted = book.deliver(rt, board, seats, h);
    if noted {
        signs.tell_note();
    }
    let ran = book.run_command(rt, board, seats, h);
    let supplied = supply_all(rt, board, seats, book, seat);
    noted | ran | supplied
}

/// What can be done at a component but a step of its part. At one that is Executing headers are handed on alone, unless all is asked.
/// Whether anything was done.
#[tactic(auto, using(pass_book::proofs::Keeping::moves_on, pass_book::proofs::Keeping::moves_itself, crate::proofs::Keeping::seated))]
pub(crate) fn tend<S: Source, K: Sink, C: Client, R: Wait>(
    rt: &R,
    board: &Board<S, K, C>,
    seats: &[Seat],
    signs: &Signs,
    book: &mut Book<S, K, C>,
    seat: &Seat,
    all: bool,
) -> bool
    requires book { IsBook board.now seats.now book.old }
    requires seat { IsSeatOf seats.now seat.now }
    requires none { clients C.progress book.old.pass ≡ [] }
    ensures { Moves C.progress board.now seats.now book.old book.new }
{
    let h = seat.handle;
    let executing = book.is_executing(board, seats, h);
    let brought = if all || !executing {
        bring_on(rt, board, seats, signs, book, seat)
    } else {
        false
    };
    let handed = hand_all(rt, board, seats, book, seat);
    brought | handed
}
