//! A work goes out in one turn, is done while no turn is held, and comes back in another.

ghost use Rattle.std.specs.Prelude.{◌≡◌, ◌<◌, ◌≤◌, [], ◌∷◌, length, option_map};
ghost use Rattle.omx_types.specs.declared.handle.Handle.{Handle};
ghost use Rattle.graph_acts.specs.declared.act.Act.TheVariants as asks;
ghost use Rattle.graph_acts.specs.declared.act.Reply.TheVariants as replies;
ghost use Rattle.graph_acts.specs.Plain.{sight_of};
ghost use Rattle.graph_acts.specs.Replying.{IsReplyTo};
ghost use Rattle.graph_acts.specs.Working.{OutWork, IsRunOf, out_of, work_given};
ghost use Rattle.board.specs.Boards.{headers, clients, works};
ghost use Rattle.pass_book.specs.Books.{GoesOn, IsBook, Made};
ghost use Rattle.pass_book.specs.Seats.{IsSeatOf, IsSeated};
ghost use Rattle.play_worker.specs.Failing.{failed_by};
ghost use Rattle.play_worker.specs.Stepping.{Steps};
ghost use Rattle.play_worker.specs.Workers.{IsWorker};

use crate::failure::Failure;
use crate::gate::Gate;
use crate::worker::Worker;
use board::{Act, Board, DoneWork, LentClaim, LentWork, Reply};
use note_queues::Client;
use omx_types::Handle;
use outside_io::{Sink, Source};
use pass_book::Book;
use std::sync::Wait;
use work_signs::Seat;

/// The component's place.
#[tactic(auto, using(crate::proofs::Keeping::seated_within))]
fn place_of(_seats: &[Seat], h: Handle) -> u32
    requires seated { IsSeated _seats.now h }
    requires few { length _seats.now ≤ 32 }
    ensures place { result ≡ h.generation }
    ensures few { result < 32 }
{
    h.generation as u32
}

/// The work that the reply to a claim gives.
fn work_in<S: Source, K: Sink, C>(reply: Reply<S, K, C>) -> Option<LentWork<S, K>>
    requires { (h : Handle) × IsReplyTo (asks.Claim h) reply }
    ensures { option_map out_of result ≡ work_given reply }
{
    match reply {
        Reply::Claim(Ok(LentClaim::Work(work))) => Some(work),
        Reply::Claim(Ok(LentClaim::Busy)) => None,
        Reply::Claim(Ok(LentClaim::NotRunning)) => None,
        Reply::Claim(Ok(LentClaim::Ended)) => None,
        Reply::Claim(Ok(LentClaim::Held(_))) => None,
        Reply::Claim(Ok(LentClaim::NoData(_))) => None,
        Reply::Claim(Ok(LentClaim::NoRoom(_))) => None,
        Reply::Claim(Ok(LentClaim::Events { room: _, need: _ })) => None,
        Reply::Claim(Err(_)) => None,
        _ => unreachable!(),
    }
}

/// How the step failed, if it did.
fn failure_of<S: Source, K: Sink>(done: &DoneWork<S, K>) -> Option<Failure>
    ensures { result ≡ failed_by done.now.component done.now.fault }
{
    let fault = done.fault()?;
    Some(Failure {
        component: done.component(),
        fault,
    })
}

/// Brings the work back.
fn bring_back<S: Source, K: Sink, C: Client, R: Wait>(
    rt: &R,
    board: &Board<S, K, C>,
    seats: &[Seat],
    book: &mut Book<S, K, C>,
    done: DoneWork<S, K>,
)
    requires book { IsBook board.now seats.now book.old }
    requires seated { done.component.generation < length seats.now }
    requires holds { (got : OutWork S K) × (works book.old.pass ≡ got ∷ []) × IsRunOf S.Source K.Sink got done }
    ensures goes_on { GoesOn board.now seats.now book.old book.new }
    ensures made { Made book.old (asks.Finish done) replies.Finish book.new }
    ensures works { works book.new.pass ≡ [] }
    ensures clients { clients C.progress book.new.pass ≡ clients C.progress book.old.pass }
    ensures headers { headers book.new.pass ≡ headers book.old.pass }
{
    match book.call(rt, board, seats, Act::Finish(done)) {
        Reply::Finish => {}
        _ => unreachable!(),
    }
}

impl<S: Source, K: Sink, C: Client, G: Gate> Worker<S, K, C, G> {
    /// Claims the component's work, calls the gate, does the step, and brings it back. Whether there was a work.
    #[tactic(auto, using(crate::proofs::Keeping::seated))]
    pub fn step<R: Wait>(
        &mut self,
        rt: &R,
        board: &Board<S, K, C>,
        seats: &[Seat],
        seat: &Seat,
    ) -> bool
        requires worker { IsWorker G.counts (sight_of C.Client S.Source K.Sink) board.now seats.now self.old }
        requires seat { IsSeatOf seats.now seat.now }
        requires few { length seats.now ≤ 32 }
        ensures worker { IsWorker G.counts (sight_of C.Client S.Source K.Sink) board.now seats.now self.new }
        ensures number { self.new.book.number ≡ self.old.book.number }
        ensures steps { Steps (sight_of C.Client S.Source K.Sink) seat.now.handle result self.old.book self.new.book }
    {
        let number = self.book.number();
        let h = seat.handle;
        let place = place_of(seats, h);
        let reply = self.book.call(rt, board, seats, Act::Claim(h));
        match work_in(reply) {
            Some(work) => {
                self.gate.between(u32::from(number), place);
                let done = work.run();
                let failed = failure_of(&done);
                bring_back(rt, board, seats, &mut self.book, done);
                self.worst = Failure::worse(self.worst, failed);
                true
            }
            None => false,
        }
    }
}
