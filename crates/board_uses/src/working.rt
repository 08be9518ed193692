//! A component's work goes out in one turn, is done while no turn is held, and comes back in another.
ghost use Rattle.std.specs.Prelude.{◌≡◌, [], ◌∷◌};
ghost use Rattle.turnstile.specs.Passes.{IsSamePass};
ghost use Rattle.graph_acts.specs.declared.act.Act.TheVariants as asks;
ghost use Rattle.graph_acts.specs.declared.act.Reply.TheVariants as replies;
ghost use Rattle.graph_acts.specs.Plain.{sight_of};
ghost use Rattle.graph_acts.specs.Working.{OutWork, IsRunOf};
ghost use Rattle.board.specs.Boards.{first_of, pass_view, headers, clients, works, IsCalled, IsOf};
ghost use Rattle.board_uses.specs.Stepping.{DoesStep};

use board::{Act, Board, BoardPass, DoneWork, LentClaim, Reply};
use note_queues::Client;
use omx_types::{Handle, OmxError};
use outside_io::{Sink, Source};
use std::sync::Wait;
use std::thread;

/// A work that went out at one place of the history and came back at another, or why none did.
pub enum Worked {
    Step {
        frames: u32,
        claimed_at: u64,
        finished_at: u64,
    },
    None,
    Refused(OmxError),
}

/// Brings the work back, and answers the place of the call. Where no more places are given, it waits for ever.
fn bring_back<S: Source, K: Sink, C: Client, R: Wait>(
    rt: &R,
    board: &Board<S, K, C>,
    pass: &mut BoardPass<S, K, C>,
    done: DoneWork<S, K>,
) -> u64
    requires pass { IsOf board.now pass.old }
    requires holds { (got : OutWork S K) × (works pass.old ≡ got ∷ []) × IsRunOf S.Source K.Sink got done }
    ensures pass { IsOf board.now pass.new × IsSamePass (pass_view pass.old) (pass_view pass.new) }
    ensures call { IsCalled (sight_of C.Client S.Source K.Sink) C.HEADERS (first_of board.now) (pass_view pass.old) (asks.Finish done) result replies.Finish (pass_view pass.new) }
    ensures works { works pass.new ≡ [] }
    ensures clients { clients C.progress pass.new ≡ clients C.progress pass.old }
    ensures headers { headers pass.new ≡ headers pass.old }
{
    match board.call(rt, pass, Act::Finish(done)) {
        Ok((place, Reply::Finish)) => place,
        Ok((_, _)) => unreachable!(),
        Err(_act) => {
            for _ in rt.forever() {
                thread::yield_now();
            }
            unreachable!()
        }
    }
}

/// Claims the component's work, does its step, and brings it back. `None` where no more places are given.
pub fn work_once<S: Source, K: Sink, C: Client, R: Wait>(
    rt: &R,
    board: &Board<S, K, C>,
    pass: &mut BoardPass<S, K, C>,
    h: Handle,
) -> Option<Worked>
    requires pass { IsOf board.now pass.old }
    requires holds { works pass.old ≡ [] }
    ensures pass { IsOf board.now pass.new × IsSamePass (pass_view pass.old) (pass_view pass.new) }
    ensures calls { DoesStep S.Source K.Sink h result pass.old pass.new }
    ensures works { works pass.new ≡ [] }
    ensures clients { clients C.progress pass.new ≡ clients C.progress pass.old }
    ensures headers { headers pass.new ≡ headers pass.old }
{
    match board.call(rt, pass, Act::Claim(h)) {
        Ok((claimed_at, Reply::Claim(Ok(LentClaim::Work(work))))) => {
            let done = work.run();
            let frames = done.frames();
            let finished_at = bring_back(rt, board, pass, done);
            Some(Worked::Step {
                frames,
                claimed_at,
                finished_at,
            })
        }
        Ok((_, Reply::Claim(Ok(LentClaim::Busy)))) => Some(Worked::None),
        Ok((_, Reply::Claim(Ok(LentClaim::NotRunning)))) => Some(Worked::None),
        Ok((_, Reply::Claim(Ok(LentClaim::Ended)))) => Some(Worked::None),
        Ok((_, Reply::Claim(Ok(LentClaim::Held(_))))) => Some(Worked::None),
        Ok((_, Reply::Claim(Ok(LentClaim::NoData(_))))) => Some(Worked::None),
        Ok((_, Reply::Claim(Ok(LentClaim::NoRoom(_))))) => Some(Worked::None),
        Ok((_, Reply::Claim(Ok(LentClaim::Events { room: _, need: _ })))) => Some(Worked::None),
        Ok((_, Reply::Claim(Err(error)))) => Some(Worked::Refused(error)),
        Ok((_, _)) => unreachable!(),
        Err(Act::Claim(_)) => None,
        Err(_) => unreachable!(),
    }
}
