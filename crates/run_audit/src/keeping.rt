//! What a reply hands out is kept.

ghost use Rattle.std.specs.Prelude.{◌≡◌, ◌<◌, length, slice_get, slice_set, Some, None, IfSome};
ghost use Rattle.il_machine.specs.Components.{noted_by};
ghost use Rattle.note_queues.specs.Queues.{note_of};
ghost use Rattle.graph_acts.specs.Holding.{header_in, given_out};
ghost use Rattle.run_audit.specs.Keeping.{IfTaken, IsClaim, IsQuietReply, IsTake, PutsClient, with_thing, work_in};

use graph_acts::{LentClaim, LentWork, Reply};
use note_queues::{Call, Client, Taken, Took};
use outside_io::{Sink, Source};
use std::mem::replace;

/// Puts a thing at a place that has none.
fn put<T>(things: &mut [Option<T>], place: usize, thing: T)
    requires there { place < length things.old }
    requires free { slice_get things.old place ≡ Some None }
    ensures { things.new ≡ slice_set things.old place (Some thing) }
{
    match replace(&mut things[place], Some(thing)) {
        None => {}
        Some(_) => unreachable!(),
    }
}

/// Takes what is at a place.
pub(crate) fn take_at<T>(things: &mut [Option<T>], place: usize) -> Option<T>
    requires { place < length things.old }
    ensures was { slice_get things.old place ≡ Some result }
    ensures left { things.new ≡ slice_set things.old place None }
{
    replace(&mut things[place], None)
}

/// Lets go a reply that hands nothing out.
pub(crate) fn let_go<S: Source, K: Sink, C: Client>(reply: Reply<S, K, C>)
    requires { IsQuietReply reply }
{
    match reply {
        Reply::SetParameter(_) | Reply::DropTunnel(_) | Reply::SendCommand(_) => {}
        Reply::SetupTunnel(_) => {}
        Reply::RunCommand(_) | Reply::Release(_) | Reply::HandOver(_) | Reply::HandBack(_) => {}
        Reply::Supply(_) => {}
        _ => unreachable!(),
    }
}

/// Keeps the work that a claim hands out at its component's place.
pub(crate) fn keep_work<S: Source, K: Sink, C: Client>(
    works: &mut [Option<LentWork<S, K>>],
    place: usize,
    reply: Reply<S, K, C>,
)
    requires claim { IsClaim reply }
    requires there { place < length works.old }
    requires free { IfSome (work_in reply) (λ work. slice_get works.old place ≡ Some None) }
    ensures { works.new ≡ with_thing place (work_in reply) works.old }
{
    match reply {
        Reply::Claim(Ok(LentClaim::Work(work))) => put(works, place, work),
        Reply::Claim(Ok(LentClaim::Busy)) => {}
        Reply::Claim(Ok(LentClaim::NotRunning)) => {}
        Reply::Claim(Ok(LentClaim::Ended)) => {}
        Reply::Claim(Ok(LentClaim::Held(_))) => {}
        Reply::Claim(Ok(LentClaim::NoData(_))) => {}
        Reply::Claim(Ok(LentClaim::NoRoom(_))) => {}
        Reply::Claim(Ok(LentClaim::Events { room: _, need: _ })) => {}
        Reply::Claim(Err(_)) => {}
        _ => unreachable!(),
    }
}

/// Keeps the client object that comes with a note at its component's place, once it was told the event.
pub(crate) fn keep_client<S: Source, K: Sink, C: Client>(
    clients: &mut [Option<C>],
    place: usize,
    reply: Reply<S, K, C>,
)
    requires take { IsTake reply }
    requires event { given_out reply ≡ None }
    requires there { place < length clients.old }
    requires free { IfTaken reply (slice_get clients.old place ≡ Some None) }
    ensures { PutsClient C.progress place clients.old clients.new reply }
{
    match reply {
        Reply::TakeNote(Ok(Took::Call(call))) => {
            let Call { client, taken } = call;
            put(clients, place, told(client, taken));
        }
        Reply::TakeNote(Ok(Took::None)) => {}
        Reply::TakeNote(Ok(Took::Busy)) => {}
        Reply::TakeNote(Err(_)) => {}
        _ => unreachable!(),
    }
}

/// The client object, told the event of a note that has no header.
fn told<C: Client>(mut client: C, taken: Taken) -> C
    requires { header_in taken ≡ None }
    ensures { C.progress result ≡ noted_by (note_of taken) (C.progress client) }
{
    match taken {
        Taken::Told(event) => {
            client.hear(event);
            client
        }
        Taken::EmptyDone(_header) => unreachable!(),
        Taken::FillDone(_header) => unreachable!(),
    }
}
