//! Moves: a command is run, a header comes or goes. Each answers whether it was done.

ghost use Rattle.std.specs.Prelude.{◌≡◌, ℕ, Result, true, slice_get, Some};
ghost use Rattle.omx_types.specs.declared.error.CallError.{CallError};
ghost use Rattle.omx_types.specs.declared.error.OmxError.{OmxError};
ghost use Rattle.omx_types.specs.declared.state.State.TheVariants.{Executing};
ghost use Rattle.il_machine.specs.declared.answer.Acted.{Acted};
ghost use Rattle.state_words.specs.Shown.{LastIs};
ghost use Rattle.graph_acts.specs.declared.act.Act.TheVariants as asks;
ghost use Rattle.graph_acts.specs.declared.act.Reply.TheVariants as replies;
ghost use Rattle.board.specs.Boards.{first_of, seen_states, pass_view};
ghost use Rattle.pass_book.specs.Books.{GoesOn, IsBook, Made};
ghost use Rattle.pass_book.specs.Moves.{HoldsAsBefore, Moves, was_done};
ghost use Rattle.pass_book.specs.Seats.{IsPlayCommand, IsSeated, IsSeatedAt};

use crate::book::Book;
use crate::quiet::{QuietAct, QuietReply};
use board::Board;
use il_machine::{Acted, Progress};
use note_queues::Client;
use omx_types::{Command, Handle, OmxError, State};
use outside_io::{Sink, Source};
use std::sync::Wait;
use work_signs::Seat;

fn was_done<E: Drop>(answer: Result<Acted, E>) -> bool
    ensures { result ≡ was_done answer }
{
    matches!(answer, Ok(Acted::Did))
}

impl<S: Source, K: Sink, C: Client> Book<S, K, C> {
    /// The component's oldest command is run.
    #[tactic(auto, using(crate::proofs::Keeping::moves_once))]
    pub fn run_command<R: Wait>(
        &mut self,
        rt: &R,
        board: &Board<S, K, C>,
        seats: &[Seat],
        h: Handle,
    ) -> bool
        requires book { IsBook board.now seats.now self.old }
        requires seated { IsSeated seats.now h }
        ensures moves { Moves C.progress board.now seats.now self.old self.new }
        ensures made { (answer : Result Acted OmxError) × Made self.old (asks.RunCommand h) (replies.RunCommand answer) self.new × (result ≡ was_done answer) }
    {
        match self.quiet(rt, board, seats, QuietAct::RunCommand(h)) {
            QuietReply::RunCommand(answer) => was_done(answer),
            _ => unreachable!(),
        }
    }

    /// The port makes a header.
    #[tactic(auto, using(crate::proofs::Keeping::moves_once))]
    pub fn supply<R: Wait>(
        &mut self,
        rt: &R,
        board: &Board<S, K, C>,
        seats: &[Seat],
        h: Handle,
        port: u32,
    ) -> bool
        requires book { IsBook board.now seats.now self.old }
        requires seated { IsSeatedAt seats.now h port }
        ensures moves { Moves C.progress board.now seats.now self.old self.new }
        ensures made { (answer : Result Acted CallError) × Made self.old (asks.Supply h port) (replies.Supply answer) self.new × (result ≡ was_done answer) }
    {
        match self.quiet(rt, board, seats, QuietAct::Supply(h, port)) {
            QuietReply::Supply(answer) => was_done(answer),
            _ => unreachable!(),
        }
    }

    /// The port unmakes a header.
    #[tactic(auto, using(crate::proofs::Keeping::moves_once))]
    pub fn release<R: Wait>(
        &mut self,
        rt: &R,
        board: &Board<S, K, C>,
        seats: &[Seat],
        h: Handle,
        port: u32,
    ) -> bool
        requires book { IsBook board.now seats.now self.old }
        requires seated { IsSeatedAt seats.now h port }
        ensures moves { Moves C.progress board.now seats.now self.old self.new }
        ensures made { (answer : Result Acted OmxError) × Made self.old (asks.Release h port) (replies.Release answer) self.new × (result ≡ was_done answer) }
    {
        match self.quiet(rt, board, seats, QuietAct::Release(h, port)) {
            QuietReply::Release(answer) => was_done(answer),
            _ => unreachable!(),
        }
    }

    /// The port hands a header over.
    #[tactic(auto, using(crate::proofs::Keeping::moves_once))]
    pub fn hand_over<R: Wait>(
        &mut self,
        rt: &R,
        board: &Board<S, K, C>,
        seats: &[Seat],
        h: Handle,
        port: u32,
    ) -> bool
        requires book { IsBook board.now seats.now self.old }
        requires seated { IsSeatedAt seats.now h port }
        ensures moves { Moves C.progress board.now seats.now self.old self.new }
        ensures made { (answer : Result Acted OmxError) × Made self.old (asks.HandOver h port) (replies.HandOver answer) self.new × (result ≡ was_done answer) }
    {
        match self.quiet(rt, board, seats, QuietAct::HandOver(h, port)) {
            QuietReply::HandOver(answer) => was_done(answer),
            _ => unreachable!(),
        }
    }

    /// The port hands a header back.
    #[tactic(auto, using(crate::proofs::Keeping::moves_once))]
    pub fn hand_back<R: Wait>(
        &mut self,
        rt: &R,
        board: &Board<S, K, C>,
        seats: &[Seat],
        h: Handle,
        port: u32,
    ) -> bool
        requires book { IsBook board.now seats.now self.old }
        requires seated { IsSeatedAt seats.now h port }
        ensures moves { Moves C.progress board.now seats.now self.old self.new }
        ensures made { (answer : Result Acted OmxError) × Made self.old (asks.HandBack h port) (replies.HandBack answer) self.new × (result ≡ was_done answer) }
    {
        match self.quiet(rt, board, seats, QuietAct::HandBack(h, port)) {
            QuietReply::HandBack(answer) => was_done(answer),
            _ => unreachable!(),
        }
    }

    /// What the component has told, or nothing while its client object is out.
    #[tactic(auto, using(crate::proofs::Keeping::moves_once))]
    pub fn progress<R: Wait>(
        &mut self,
        rt: &R,
        board: &Board<S, K, C>,
        seats: &[Seat],
        h: Handle,
    ) -> Result<Option<Progress>, OmxError>
        requires book { IsBook board.now seats.now self.old }
        requires seated { IsSeated seats.now h }
        ensures moves { Moves C.progress board.now seats.now self.old self.new }
        ensures made { Made self.old (asks.Progress h) (replies.Progress result) self.new }
    {
        match self.quiet(rt, board, seats, QuietAct::Progress(h)) {
            QuietReply::Progress(answer) => answer,
            _ => unreachable!(),
        }
    }

    /// A command is sent.
    pub fn send<R: Wait>(
        &mut self,
        rt: &R,
        board: &Board<S, K, C>,
        seats: &[Seat],
        h: Handle,
        command: Command,
    ) -> Result<(), OmxError>
        requires book { IsBook board.now seats.now self.old }
        requires seated { IsSeated seats.now h }
        requires command { IsPlayCommand command }
        ensures goes_on { GoesOn board.now seats.now self.old self.new }
        ensures holds { HoldsAsBefore C.progress self.old self.new }
        ensures made { Made self.old (asks.SendCommand h command) (replies.SendCommand result) self.new }
    {
        match self.quiet(rt, board, seats, QuietAct::SendCommand(h, command)) {
            QuietReply::SendCommand(answer) => answer,
            _ => unreachable!(),
        }
    }

    /// Whether the component's state, as it is seen without a turn, is Executing.
    #[tactic(auto, using(crate::proofs::Keeping::peeked))]
    pub fn is_executing(&mut self, board: &Board<S, K, C>, _seats: &[Seat], h: Handle) -> bool
        requires book { IsBook board.now _seats.now self.old }
        ensures moves { Moves C.progress board.now _seats.now self.old self.new }
        ensures same { pass_view self.new.pass ≡ pass_view self.old.pass }
        ensures last { result ≡ true → (i : ℕ) × (version : ℕ) × (slice_get (first_of board.now).handles.items i ≡ Some h) × LastIs (seen_states self.new.pass) i version Executing }
    {
        matches!(
            board.peek_state(&mut self.pass, h),
            Ok((_, State::Executing))
        )
    }
}
