//! A note is taken, told to the client object, and ended.

ghost use Rattle.std.specs.Prelude.{◌≡◌, [], ◌∷◌};
ghost use Rattle.graph_acts.specs.declared.act.Act.TheVariants as asks;
ghost use Rattle.graph_acts.specs.declared.act.Reply.TheVariants as replies;
ghost use Rattle.board.specs.Boards.{clients, headers, works};
ghost use Rattle.pass_book.specs.Books.{GoesOn, IsBook, Made};
ghost use Rattle.pass_book.specs.Moves.{Delivered, Moves, out_client};
ghost use Rattle.pass_book.specs.Seats.{IsSeated};

use crate::book::Book;
use crate::still::stand_still;
use board::{Act, Board, Reply};
use note_queues::{Call, Client, Taken, Took};
use omx_types::Handle;
use outside_io::{Sink, Source};
use std::sync::Wait;
use work_signs::Seat;

impl<S: Source, K: Sink, C: Client> Book<S, K, C> {
    /// Gives the client object back.
    fn end_note<R: Wait>(
        &mut self,
        rt: &R,
        board: &Board<S, K, C>,
        seats: &[Seat],
        h: Handle,
        client: C,
    )
        requires book { IsBook board.now seats.now self.old }
        requires seated { IsSeated seats.now h }
        requires holds { clients C.progress self.old.pass ≡ out_client h (C.progress client) ∷ [] }
        ensures goes_on { GoesOn board.now seats.now self.old self.new }
        ensures made { Made self.old (asks.EndNote h client) replies.EndNote self.new }
        ensures clients { clients C.progress self.new.pass ≡ [] }
        ensures headers { headers self.new.pass ≡ headers self.old.pass }
        ensures works { works self.new.pass ≡ works self.old.pass }
    {
        match self.call(rt, board, seats, Act::EndNote(h, client)) {
            Reply::EndNote => {}
            _ => unreachable!(),
        }
    }

    /// Delivers the oldest note of the component, and answers whether there was one. Where clients are given no headers, none comes in a
    /// note; with one it would wait for ever.
    pub fn deliver<R: Wait>(
        &mut self,
        rt: &R,
        board: &Board<S, K, C>,
        seats: &[Seat],
        h: Handle,
    ) -> bool
        requires book { IsBook board.now seats.now self.old }
        requires seated { IsSeated seats.now h }
        requires none { clients C.progress self.old.pass ≡ [] }
        ensures moves { Moves C.progress board.now seats.now self.old self.new }
        ensures delivered { Delivered C.progress h result self.old self.new }
    {
        match self.call(rt, board, seats, Act::TakeNote(h)) {
            Reply::TakeNote(Ok(Took::Call(call))) => {
                let Call { mut client, taken } = call;
                match taken {
                    Taken::Told(event) => {
                        client.hear(event);
                        self.end_note(rt, board, seats, h, client);
                        true
                    }
                    _header => {
                        stand_still(rt);
                        unreachable!()
                    }
                }
            }
            Reply::TakeNote(Ok(Took::None)) => false,
            Reply::TakeNote(Ok(Took::Busy)) => false,
            Reply::TakeNote(Err(_)) => false,
            _ => unreachable!(),
        }
    }
}
