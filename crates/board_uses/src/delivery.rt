//! A note is taken, told to the client object, and ended.
ghost use Rattle.std.specs.Prelude.{◌≡◌, [], ◌∷◌};
ghost use Rattle.il_machine.specs.Components.{noted_by};
ghost use Rattle.note_queues.specs.Queues.{note_of};
ghost use Rattle.turnstile.specs.Passes.{IsSamePass};
ghost use Rattle.graph_acts.specs.declared.act.Act.TheVariants as asks;
ghost use Rattle.graph_acts.specs.declared.act.Reply.TheVariants as replies;
ghost use Rattle.graph_acts.specs.Plain.{sight_of};
ghost use Rattle.board.specs.Boards.{first_of, pass_view, headers, clients, works, IsCalled, IsOf};
ghost use Rattle.board_uses.specs.Delivering.{out_client, headers_got, DoesDeliver};

use board::{Act, Board, BoardPass, Reply};
use note_queues::{Call, Client, Taken, Took};
use omx_types::{Handle, OmxError};
use outside_io::{Sink, Source};
use std::sync::Wait;
use std::thread;

/// A note that was taken at one place of the history and ended at another, or why none was.
pub enum Delivered {
    Note {
        taken: Taken,
        taken_at: u64,
        ended_at: u64,
    },
    None,
    Busy,
    Refused(OmxError),
}

/// Tells the client object the event of the note, if it is one.
fn tell<C: Client>(client: &mut C, taken: &Taken)
    ensures { C.progress client.new ≡ noted_by (note_of taken.now) (C.progress client.old) }
{
    match taken {
        Taken::Told(event) => client.hear(*event),
        Taken::EmptyDone(_) => {}
        Taken::FillDone(_) => {}
    }
}

/// Gives the client object back, and answers the place of the call. Where no more places are given, it waits for ever.
fn end<S: Source, K: Sink, C: Client, R: Wait>(
    rt: &R,
    board: &Board<S, K, C>,
    pass: &mut BoardPass<S, K, C>,
    h: Handle,
    client: C,
) -> u64
    requires pass { IsOf board.now pass.old }
    requires holds { clients C.progress pass.old ≡ out_client h (C.progress client) ∷ [] }
    ensures pass { IsOf board.now pass.new × IsSamePass (pass_view pass.old) (pass_view pass.new) }
    ensures call { IsCalled (sight_of C.Client S.Source K.Sink) C.HEADERS (first_of board.now) (pass_view pass.old) (asks.EndNote h client) result replies.EndNote (pass_view pass.new) }
    ensures clients { clients C.progress pass.new ≡ [] }
    ensures headers { headers pass.new ≡ headers pass.old }
    ensures works { works pass.new ≡ works pass.old }
{
    match board.call(rt, pass, Act::EndNote(h, client)) {
        Ok((place, Reply::EndNote)) => place,
        Ok((_, _)) => unreachable!(),
        Err(_act) => {
            for _ in rt.forever() {
                thread::yield_now();
            }
            unreachable!()
        }
    }
}

/// Delivers the oldest note of a component. `None` where no more places are given.
pub fn deliver<S: Source, K: Sink, C: Client, R: Wait>(
    rt: &R,
    board: &Board<S, K, C>,
    pass: &mut BoardPass<S, K, C>,
    h: Handle,
) -> Option<Delivered>
    requires pass { IsOf board.now pass.old }
    requires holds { clients C.progress pass.old ≡ [] }
    ensures pass { IsOf board.now pass.new × IsSamePass (pass_view pass.old) (pass_view pass.new) }
    ensures calls { DoesDeliver C.progress h result pass.old pass.new }
    ensures clients { clients C.progress pass.new ≡ [] }
    ensures headers { headers pass.new ≡ headers_got result (headers pass.old) }
    ensures works { works pass.new ≡ works pass.old }
{
    match board.call(rt, pass, Act::TakeNote(h)) {
        Ok((taken_at, Reply::TakeNote(Ok(Took::Call(call))))) => {
            let Call { mut client, taken } = call;
            tell(&mut client, &taken);
            let ended_at = end(rt, board, pass, h, client);
            Some(Delivered::Note {
                taken,
                taken_at,
                ended_at,
            })
        }
        Ok((_, Reply::TakeNote(Ok(Took::None)))) => Some(Delivered::None),
        Ok((_, Reply::TakeNote(Ok(Took::Busy)))) => Some(Delivered::Busy),
        Ok((_, Reply::TakeNote(Err(error)))) => Some(Delivered::Refused(error)),
        Ok((_, _)) => unreachable!(),
        Err(Act::TakeNote(_)) => None,
        Err(_) => unreachable!(),
    }
}
