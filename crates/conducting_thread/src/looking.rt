//! Looks at what the components have told.

ghost use Rattle.std.specs.Prelude.{◌≡◌, ◌≤◌, [], ◌∷◌, All, length, take, IfSome, IfNone, Ok, Err};
ghost use Rattle.omx_types.specs.declared.error.OmxError.{OmxError};
ghost use Rattle.il_machine.specs.Acts as acts;
ghost use Rattle.play_result_laws.specs.Rounds.{looks};
ghost use Rattle.graph_acts.specs.Plain.{sight_of};
ghost use Rattle.board.specs.Boards.{own_calls};
ghost use Rattle.pass_book.specs.Books.{IsBook};
ghost use Rattle.work_signs.specs.declared.seat.Seat.{Seat};
ghost use Rattle.pass_book.specs.Seats.{IsSeated};
ghost use Rattle.conducting_thread.specs.Asking.{HasAsked, Keeps};
ghost use Rattle.conducting_thread.specs.Looking.{HasLost};
ghost use Rattle.work_signs.specs.Seats.{handles_of};

use crate::link_ends::handle_at;
use board::Board;
use il_machine::Progress;
use note_queues::Client;
use omx_types::Handle;
use outside_io::{Sink, Source};
use pass_book::{Book, QuietAct, QuietReply};
use std::sync::Wait;
use work_signs::Seat;

/// What the component has told, if its client object is in. `None` where the look was refused.
#[tactic(auto, using(crate::proofs::Requests::keeps_quiet))]
fn look<S: Source, K: Sink, C: Client, R: Wait>(
    book: &mut Book<S, K, C>,
    rt: &R,
    board: &Board<S, K, C>,
    seats: &[Seat],
    h: Handle,
) -> Option<Option<Progress>>
    requires book { IsBook board.now seats.now book.old }
    requires seated { IsSeated seats.now h }
    ensures keeps { Keeps C.progress board.now seats.now book.old book.new }
    ensures some { IfSome result (λ view. HasAsked (sight_of C.Client S.Source K.Sink) (own_calls book.old.pass) ((acts.Progress h, acts.Progressed (Ok view)) ∷ []) (own_calls book.new.pass)) }
    ensures none { IfNone result ((e : OmxError) × HasAsked (sight_of C.Client S.Source K.Sink) (own_calls book.old.pass) ((acts.Progress h, acts.Progressed (Err e)) ∷ []) (own_calls book.new.pass)) }
{
    match book.quiet(rt, board, seats, QuietAct::Progress(h)) {
        QuietReply::Progress(Ok(view)) => Some(view),
        QuietReply::Progress(Err(_)) => None,
        _ => unreachable!(),
    }
}

/// What each component has told, in the order of the script. `None` where a look was refused: then none is made behind it.
pub fn look_all<S: Source, K: Sink, C: Client, R: Wait>(
    book: &mut Book<S, K, C>,
    rt: &R,
    board: &Board<S, K, C>,
    seats: &[Seat],
) -> Option<[Option<Progress>; 32]>
    requires book { IsBook board.now seats.now book.old }
    requires few { length seats.now ≤ 32 }
    requires seated { All (λ (seat : Seat). IsSeated seats.now seat.handle) seats.now }
    ensures keeps { Keeps C.progress board.now seats.now book.old book.new }
    ensures some { IfSome result (λ views. HasAsked (sight_of C.Client S.Source K.Sink) (own_calls book.old.pass) (looks (handles_of seats.now) (take (length seats.now) views)) (own_calls book.new.pass)) }
    ensures many { IfSome result (λ views. length views ≡ 32) }
    ensures none { IfNone result (HasLost (sight_of C.Client S.Source K.Sink) (handles_of seats.now) (own_calls book.old.pass) (own_calls book.new.pass)) }
{
    let mut views = [None; 32];
    for place in 0..seats.len() {
        let h = handle_at(seats, place);
        let view = look(book, rt, board, seats, h)?;
        views[place] = view;
    }
    Some(views)
}
