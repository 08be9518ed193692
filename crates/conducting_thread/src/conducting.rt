//! The pass that conducts a play.

ghost use Rattle.std.specs.Prelude.{◌≡◌, ◌≤◌, [], length, take, true, false, List};
ghost use Rattle.il_machine.specs.Acts as acts;
ghost use Rattle.turnstile.specs.Passes.{IsSamePass};
ghost use Rattle.conductor.specs.Casting.{cast_of};
ghost use Rattle.conductor.specs.Hearing.{heard};
ghost use Rattle.conductor.specs.Phases.{Conducts};
ghost use Rattle.play_forms.specs.Plans.{IsValid, PlanValue};
ghost use Rattle.play_plan_laws.specs.Assemblies.{PlayFiles};
ghost use Rattle.play_result_laws.specs.Rounds.{AreMade};
ghost use Rattle.graph_acts.specs.Plain.{sight_of};
ghost use Rattle.board.specs.declared.boards.Board.{Board};
ghost use Rattle.board.specs.Boards.{own_calls, pass_view};
ghost use Rattle.work_signs.specs.declared.seat.Seat.{Seat};
ghost use Rattle.pass_book.specs.Books.{IsBook};
ghost use Rattle.conducting_thread.specs.Asking.{AreAnswered, Keeps};
ghost use Rattle.conducting_thread.specs.Knowing.{IsOfPlan, KnowsPlan};
ghost use Rattle.conducting_thread.specs.Passes.{GoesOnAfter, IsAtEnd, IsConductingPass, is_end, round_of};
ghost use Rattle.work_signs.specs.Seats.{handles_of};
ghost use Rattle.conducting_thread.specs.Seating.{AreSeatsFor};

use crate::asking::send_all;
use crate::changing::change;
use crate::looking::look_all;
use board::Board;
use conductor::{Conductor, Phase};
use il_machine::Progress;
use note_queues::Client;
use outside_io::{Sink, Source};
use pass_book::Book;
use std::sync::Wait;
use std::thread;
use stream_plan::Plan;
use work_signs::{Seat, Signs};

/// The first pass of a board, with the conductor that hears what its looks show and says what it requests. It can't be let go, as its book
/// can't.
pub struct ConductingPass<S: Source, K: Sink, C: Client> {
    pub book: Book<S, K, C>,
    pub conductor: Conductor,
    /// The conductor has answered that the play is over.
    pub ended: bool,
    /// An act was answered otherwise than those of a play are. Then nothing more is asked.
    pub refused: bool,
    /// It was told to stop before the play had come to an end.
    pub stopped: bool,
}

/// What a round has come to.
#[derive(Clone, Copy)]
pub enum Round {
    /// Requests were made.
    Asks,
    /// Nothing is due before a component tells more.
    Waits,
    /// Nothing is asked any more: the play is over or has failed, or an act was refused.
    Ends,
}

/// How often it lets other threads run before it looks again, where no note was told.
const RESTS: u32 = 1000;

fn is_end(phase: Phase) -> bool
    ensures { result ≡ is_end phase }
{
    matches!(phase, Phase::Over)
}

fn round_of(phase: Phase) -> Round
    ensures { result ≡ round_of phase }
{
    match phase {
        Phase::Send(_) => Round::Asks,
        Phase::Change {
            component: _,
            step: _,
        } => Round::Asks,
        Phase::Wait => Round::Waits,
        Phase::Over => Round::Ends,
        Phase::Failed => Round::Ends,
    }
}

/// What the conductor answers by the views of its components, which are the first of these.
fn hear(conductor: &mut Conductor, views: &[Option<Progress>; 32], count: usize) -> Phase
    requires few { count ≤ 32 }
    requires many { count ≡ length conductor.old.told }
    ensures conducts { Conducts (heard conductor.old (take count views.now)) result conductor.new }
    ensures knows { (plan : PlanValue) → KnowsPlan plan conductor.old → KnowsPlan plan conductor.new × IsOfPlan plan result }
{
    conductor.next(&views[..count])
}

/// Makes the requests of the phase, up to the first that isn't accepted: whether all were.
fn make<S: Source, K: Sink, C: Client, R: Wait>(
    book: &mut Book<S, K, C>,
    rt: &R,
    board: &Board<S, K, C>,
    plan: &Plan,
    seats: &[Seat],
    phase: Phase,
) -> bool
    requires book { IsBook board.now seats.now book.old }
    requires valid { IsValid plan.now }
    requires seats { AreSeatsFor plan.now seats.now }
    requires phase { IsOfPlan plan.now phase }
    ensures keeps { Keeps C.progress board.now seats.now book.old book.new }
    ensures answered { (files : PlayFiles) → (due : List (acts.Act × acts.Reply)) × AreMade plan.now files (handles_of seats.now) phase due × AreAnswered (sight_of C.Client S.Source K.Sink) (own_calls book.old.pass) due result (own_calls book.new.pass) }
{
    match phase {
        Phase::Send(state) => send_all(book, rt, board, seats, state),
        Phase::Change { component, step } => {
            change(book, rt, board, plan, seats, component, step)
        }
        Phase::Wait => true,
        Phase::Over => true,
        Phase::Failed => true,
    }
}

impl<S: Source, K: Sink, C: Client> ConductingPass<S, K, C> {
    /// One that has asked nothing.
    pub fn new(book: Book<S, K, C>, conductor: Conductor) -> ConductingPass<S, K, C>
        ensures parts { (result.book ≡ book) × (result.conductor ≡ conductor) × (result.ended ≡ false) × (result.refused ≡ false) }
        ensures pass { (b : Board S K C) (plan : PlanValue) (seats : List Seat) → IsBook b seats book → book.number ≡ 0 → (pass_view book.pass).mine ≡ [] → conductor ≡ cast_of plan
            → IsConductingPass (sight_of C.Client S.Source K.Sink) b plan seats result }
    {
        ConductingPass {
            book,
            conductor,
            ended: false,
            refused: false,
            stopped: false,
        }
    }

    /// Looks at each component, and requests all that is then due.
    pub fn conduct_once<R: Wait>(
        &mut self,
        rt: &R,
        board: &Board<S, K, C>,
        plan: &Plan,
        seats: &[Seat],
    ) -> Round
        requires pass { IsConductingPass (sight_of C.Client S.Source K.Sink) board.now plan.now seats.now self.old }
        requires goes { (self.old.refused ≡ false) × (self.old.ended ≡ false) }
        requires valid { IsValid plan.now }
        requires seats { AreSeatsFor plan.now seats.now }
        ensures pass { IsConductingPass (sight_of C.Client S.Source K.Sink) board.now plan.now seats.now self.new }
        ensures same { IsSamePass (pass_view self.old.book.pass) (pass_view self.new.book.pass) }
        ensures goes { GoesOnAfter result self.new }
    {
        let views = match look_all(&mut self.book, rt, board, seats) {
            Some(views) => views,
            None => {
                self.refused = true;
                return Round::Ends;
            }
        };
        let phase = hear(&mut self.conductor, &views, seats.len());
        if !make(&mut self.book, rt, board, plan, seats, phase) {
            self.refused = true;
            return Round::Ends;
        }
        self.ended = is_end(phase);
        round_of(phase)
    }

    /// Conducts until the play is over or has failed, an act was refused, or the sign to stop. Where nothing is due it looks again once a
    /// note was told, and now and then without.
    pub fn conduct<R: Wait>(
        &mut self,
        rt: &R,
        board: &Board<S, K, C>,
        signs: &Signs,
        plan: &Plan,
        seats: &[Seat],
    )
        requires pass { IsConductingPass (sight_of C.Client S.Source K.Sink) board.now plan.now seats.now self.old }
        requires goes { (self.old.refused ≡ false) × (self.old.ended ≡ false) }
        requires valid { IsValid plan.now }
        requires seats { AreSeatsFor plan.now seats.now }
        ensures pass { IsConductingPass (sight_of C.Client S.Source K.Sink) board.now plan.now seats.now self.new }
        ensures same { IsSamePass (pass_view self.old.book.pass) (pass_view self.new.book.pass) }
        ensures ends { self.new.stopped ≡ false → IsAtEnd self.new.ended self.new.refused self.new.conductor }
    {
        let mut rests = 0u32;
        let mut heard = 0u64;
        for _ in rt.forever() {
            if signs.is_stopped() {
                self.stopped = true;
                return;
            }
            let notes = signs.notes();
            if rests > 0 && heard == notes {
                rests -= 1;
                thread::yield_now();
            } else {
                match self.conduct_once(rt, board, plan, seats) {
                    Round::Asks => {
                        rests = 0;
                        signs.ring_all();
                    }
                    Round::Waits => {
                        rests = RESTS;
                        heard = notes;
                    }
                    Round::Ends => {
                        signs.end();
                        return;
                    }
                }
            }
        }
        unreachable!()
    }
}
