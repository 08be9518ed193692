//! Requests, and whether each was accepted.

ghost use Rattle.std.specs.Prelude.{◌≡◌, ◌<◌, [], ◌∷◌, All, length, map, slice_get, Some};
ghost use Rattle.play_result_laws.specs.Asked.{sending};
ghost use Rattle.graph_acts.specs.Plain.{sight_of};
ghost use Rattle.board.specs.Boards.{own_calls};
ghost use Rattle.pass_book.specs.Books.{IsBook};
ghost use Rattle.conducting_thread.specs.Asking.{AreAnswered, IsRequestOf, Keeps, due, is_accepted};
ghost use Rattle.work_signs.specs.declared.seat.Seat.{Seat};
ghost use Rattle.pass_book.specs.Seats.{IsSeated};

use crate::link_ends::handle_at;
use board::Board;
use note_queues::Client;
use omx_types::{Command, State, Supplier};
use outside_io::{Sink, Source};
use pass_book::{Book, QuietAct, QuietReply};
use std::sync::Wait;
use work_signs::Seat;

/// Whether that is the answer which is due to a request.
fn is_accepted(reply: QuietReply) -> bool
    ensures { result ≡ is_accepted reply }
{
    match reply {
        QuietReply::SetParameter(answer) => answer.is_ok(),
        QuietReply::SetupTunnel(answer) => matches!(answer, Ok(Supplier::Input)),
        QuietReply::DropTunnel(answer) => answer.is_ok(),
        QuietReply::SendCommand(answer) => answer.is_ok(),
        _ => false,
    }
}

/// Makes the request: whether it was accepted.
#[tactic(auto, using(crate::proofs::Requests::keeps_quiet))]
fn ask<S: Source, K: Sink, C: Client, R: Wait>(
    book: &mut Book<S, K, C>,
    rt: &R,
    board: &Board<S, K, C>,
    seats: &[Seat],
    act: QuietAct,
) -> bool
    requires book { IsBook board.now seats.now book.old }
    requires request { IsRequestOf seats.now act }
    ensures keeps { Keeps C.progress board.now seats.now book.old book.new }
    ensures answered { AreAnswered (sight_of C.Client S.Source K.Sink) (own_calls book.old.pass) (due act ∷ []) result (own_calls book.new.pass) }
{
    is_accepted(book.quiet(rt, board, seats, act))
}

fn request_at(requests: &[QuietAct], place: usize) -> QuietAct
    requires { place < length requests.now }
    ensures { slice_get requests.now place ≡ Some result }
{
    requests[place]
}

/// Makes the requests in their order, up to the first that isn't accepted: whether all were.
pub fn ask_all<S: Source, K: Sink, C: Client, R: Wait>(
    book: &mut Book<S, K, C>,
    rt: &R,
    board: &Board<S, K, C>,
    seats: &[Seat],
    requests: &[QuietAct],
) -> bool
    requires book { IsBook board.now seats.now book.old }
    requires requests { All (IsRequestOf seats.now) requests.now }
    ensures keeps { Keeps C.progress board.now seats.now book.old book.new }
    ensures answered { AreAnswered (sight_of C.Client S.Source K.Sink) (own_calls book.old.pass) (map due requests.now) result (own_calls book.new.pass) }
{
    for place in 0..requests.len() {
        let request = request_at(requests, place);
        if !ask(book, rt, board, seats, request) {
            return false;
        }
    }
    true
}

/// Sends the state to each component, in the order of the script, up to the first that doesn't accept it: whether all did.
pub fn send_all<S: Source, K: Sink, C: Client, R: Wait>(
    book: &mut Book<S, K, C>,
    rt: &R,
    board: &Board<S, K, C>,
    seats: &[Seat],
    state: State,
) -> bool
    requires book { IsBook board.now seats.now book.old }
    requires seated { All (λ (seat : Seat). IsSeated seats.now seat.handle) seats.now }
    ensures keeps { Keeps C.progress board.now seats.now book.old book.new }
    ensures answered { AreAnswered (sight_of C.Client S.Source K.Sink) (own_calls book.old.pass) (map (λ (seat : Seat). sending state seat.handle) seats.now) result (own_calls book.new.pass) }
{
    for place in 0..seats.len() {
        let h = handle_at(seats, place);
        if !ask(
            book,
            rt,
            board,
            seats,
            QuietAct::SendCommand(h, Command::StateSet(state)),
        ) {
            return false;
        }
    }
    true
}
