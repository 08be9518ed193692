//! A pass of a board, with the lines of its own calls.

ghost use Rattle.std.specs.Prelude.{◌≡◌, ◌++◌, ◌<◌, ◌≤◌, ◌^◌, ◌↔◌, ℕ, [], List, All, length, map, option_map, IfSome, Some, slice_get, true, false, vec_capacity};
ghost use Rattle.graph_acts.specs.Plain.{sight_of};
ghost use Rattle.graph_acts.specs.Holding.{May};
ghost use Rattle.graph_acts.specs.Replying.{IsReplyTo};
ghost use Rattle.board.specs.declared.boards.Board.{Board};
ghost use Rattle.board.specs.Boards.{own_calls, headers, clients, works, headers_after, clients_after, works_after};
ghost use Rattle.board.specs.Rows.{entries_of};
ghost use Rattle.play_log.specs.Choosing.{picked};
ghost use Rattle.play_log.specs.Lines.{IsLogLine, is_left_out};
ghost use Rattle.play_log.specs.Places.{IsKeptAt, PlacedLine};
ghost use Rattle.work_signs.specs.declared.seat.Seat.{Seat};
ghost use Rattle.pass_book.specs.Books.{GoesOn, IsBook, IsFresh, IsItsWork, Made};
ghost use Rattle.pass_book.specs.Moves.{HoldsAsBefore};
ghost use Rattle.pass_book.specs.Quiet.{act_of, reply_of, AreQuietReplies, IsQuietOfPlay, IsQuietReply};
ghost use Rattle.pass_book.specs.Saying.{both_said, line_by};
ghost use Rattle.pass_book.specs.Seats.{IsOfPlay};

use crate::quiet::{QuietAct, QuietReply};
use crate::saying::{act_said, frames_of, reply_said, slot_of};
use crate::still::stand_still;
use act_text::{ActText, TextAct, TextReply, law_of_texts};
use board::{Act, ActRow, Board, BoardPass, Reply};
use note_queues::Client;
use outside_io::{Sink, Source};
use play_log::PassLog;
use std::sync::Wait;
use work_signs::Seat;

// That act of the list.
fn act_at(_seats: &[Seat], asked: &[QuietAct], i: usize) -> QuietAct
    requires within { i < length asked.now }
    requires of_play { All (IsQuietOfPlay _seats.now) asked.now }
    ensures of_play { IsQuietOfPlay _seats.now result }
    ensures there { slice_get asked.now i ≡ Some result }
{
    asked[i]
}

// The names of a text are names, and its numbers are within their limits.
fn law_of_lines(pass: u8, said: &ActText)
    ensures { IsLogLine (line_by pass said.now) }
{
    law_of_texts(said);
}

/// A pass of a board, its number, the lines of its own calls, and a row for acts that it asks together. It can't be let go, so that each
/// pass is met.
pub struct Book<S: Source, K: Sink, C: Client> {
    pub(crate) pass: BoardPass<S, K, C>,
    number: u8,
    log: PassLog,
    row: ActRow<S, K, C>,
}

impl<S: Source, K: Sink, C: Client> Book<S, K, C> {
    /// The book of a pass that made no call yet.
    pub fn new(
        pass: BoardPass<S, K, C>,
        number: u8,
        log: PassLog,
        row: ActRow<S, K, C>,
    ) -> Book<S, K, C>
        ensures parts { (result.pass ≡ pass) × (result.number ≡ number) × (result.log ≡ log) × (result.row ≡ row) }
        ensures book { (b : Board S K C) (seats : List Seat) → IsFresh b pass number log row → IsBook b seats result }
    {
        Book {
            pass,
            number,
            log,
            row,
        }
    }

    /// What it was made of, as that stands now.
    pub fn into_parts(self) -> (BoardPass<S, K, C>, PassLog, ActRow<S, K, C>)
        ensures { (result.0 ≡ self.pass) × (result.1 ≡ self.log) × (result.2 ≡ self.row) }
    {
        let Book {
            pass,
            number: _,
            log,
            row,
        } = self;
        (pass, log, row)
    }

    /// The number of its pass.
    pub fn number(&self) -> u8
        ensures { result ≡ self.now.number }
    {
        self.number
    }

    /// Whether each of its calls has its line.
    pub fn is_whole(&self) -> bool
        ensures { result ≡ true ↔ (self.now.log).broken ≡ false }
    {
        self.log.is_whole()
    }

    /// The line of a call stands at the end, if it has one. Where memory is wanting the log says so.
    fn note(
        &mut self,
        place: u64,
        slot: Option<usize>,
        act: Option<TextAct>,
        reply: Option<TextReply>,
    )
        requires printed { IfSome reply (λ r. is_left_out r ≡ false) }
        ensures same { (self.new.pass ≡ self.old.pass) × (self.new.number ≡ self.old.number) × (self.new.row ≡ self.old.row) }
        ensures broken { (self.new.log).broken ≡ false → (self.old.log).broken ≡ false }
        ensures said { IfSome (option_map (line_by self.old.number) (both_said act reply)) IsLogLine }
        ensures lines { (lines : List PlacedLine) → IsKeptAt lines self.old.log → (self.new.log).broken ≡ false
            → IsKeptAt (lines ++ picked (option_map (line_by self.old.number) (both_said act reply)) place []) self.new.log }
    {
        if let (Some(act), Some(reply)) = (act, reply) {
            let said = ActText { act, reply };
            law_of_lines(self.number, &said);
            // A line that has no memory leaves the log broken, as it says itself.
            let _ = self.log.entry(place, self.number, slot, &said);
        }
    }

    /// Makes a call, and answers what the graph answered. Its line is in the log. Where no more places are given, it waits for ever.
    pub fn call<R: Wait>(
        &mut self,
        rt: &R,
        board: &Board<S, K, C>,
        seats: &[Seat],
        act: Act<S, K, C>,
    ) -> Reply<S, K, C>
        requires book { IsBook board.now seats.now self.old }
        requires may { May (sight_of C.Client S.Source K.Sink) C.HEADERS (own_calls self.old.pass) act }
        requires of_play { IsOfPlay seats.now act }
        ensures goes_on { GoesOn board.now seats.now self.old self.new }
        ensures added { Made self.old act result self.new }
        ensures few { length (own_calls self.new.pass) ≤ 2 ^ 50 }
        ensures reply { IsReplyTo act result }
        ensures work { IsItsWork act result }
        ensures headers { headers self.new.pass ≡ headers_after act result (headers self.old.pass) }
        ensures clients { clients C.progress self.new.pass ≡ clients_after C.progress act result (clients C.progress self.old.pass) }
        ensures works { works self.new.pass ≡ works_after act result (works self.old.pass) }
    {
        let said = act_said(seats, &act);
        let frames = frames_of(&act);
        let slot = slot_of(&act);
        match board.call(rt, &mut self.pass, act) {
            Ok((place, reply)) => {
                self.note(place, slot, said, reply_said(frames, &reply));
                reply
            }
            Err(_act) => {
                stand_still(rt);
                unreachable!()
            }
        }
    }

    /// Makes a call by which nothing goes out and nothing in.
    pub fn quiet<R: Wait>(
        &mut self,
        rt: &R,
        board: &Board<S, K, C>,
        seats: &[Seat],
        asked: QuietAct,
    ) -> QuietReply
        requires book { IsBook board.now seats.now self.old }
        requires of_play { IsQuietOfPlay seats.now asked }
        ensures goes_on { GoesOn board.now seats.now self.old self.new }
        ensures added { Made self.old (act_of asked) (reply_of result) self.new }
        ensures reply { IsQuietReply asked result }
        ensures holds { HoldsAsBefore C.progress self.old self.new }
    {
        let reply = self.call(rt, board, seats, asked.into_act());
        asked.reply_in(reply)
    }

    /// Makes all these calls, in their order, with the replies in a vector that has room for them.
    pub fn calls<R: Wait>(
        &mut self,
        rt: &R,
        board: &Board<S, K, C>,
        seats: &[Seat],
        asked: &[QuietAct],
        told: &mut Vec<QuietReply>,
    )
        requires book { IsBook board.now seats.now self.old }
        requires of_play { All (IsQuietOfPlay seats.now) asked.now }
        requires few { length asked.now ≤ 32 }
        requires empty { told.old.items ≡ [] }
        requires room { length asked.now ≤ vec_capacity told.old }
        ensures goes_on { GoesOn board.now seats.now self.old self.new }
        ensures added { own_calls self.new.pass ≡ own_calls self.old.pass ++ entries_of self.old.number (map act_of asked.now) (map reply_of told.new.items) }
        ensures replies { AreQuietReplies asked.now told.new.items }
        ensures holds { HoldsAsBefore C.progress self.old self.new }
        ensures room { vec_capacity told.old ≤ vec_capacity told.new }
    {
        for i in 0..asked.len() {
            let act = act_at(seats, asked, i);
            let reply = self.quiet(rt, board, seats, act);
            told.push_reserved(reply);
        }
    }
}
