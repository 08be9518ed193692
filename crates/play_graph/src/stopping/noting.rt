//! The notes of a component are taken, which are events, and its client object is told of each.

ghost use Rattle.std.specs.Prelude.{◌≡◌, ◌<◌, IsFalse, IsTrue};
ghost use Rattle.il_machine.specs.Whole.{StepsWhere};
ghost use Rattle.il_graph.specs.Shown.{KeepsAllFiles, look_of};
ghost use Rattle.play_build_laws.specs.Halting.{HasEvents, IsSameButNotes, notes_at};
ghost use Rattle.play_graph.specs.Graphs.{kept_of};
ghost use Rattle.play_graph.specs.Ending.{StandsFor};
ghost use Rattle.play_graph.specs.Stops.{IsEvent, told_by};

use crate::handle;
use conductor::PlayClient;
use il_graph::{Call, Client, Graph, Took};
use note_queues::Taken;
use outside_io::{Sink, Source};

/// The client object, told the event of its note.
fn told_of(call: Call<PlayClient>) -> PlayClient
    requires { IsEvent call.taken }
    ensures { result ≡ told_by call.taken call.client }
{
    let Call { client, taken } = call;
    let mut told = client;
    match taken {
        Taken::Told(event) => told.hear(event),
        Taken::EmptyDone(_header) => unreachable!(),
        Taken::FillDone(_header) => unreachable!(),
    }
    told
}

/// Takes the oldest note of the component at the place. Answers whether there was one.
fn take_next<S: Source, K: Sink>(graph: &mut Graph<S, K, PlayClient>, place: u32) -> bool
    requires { StandsFor (HasEvents place) graph.old }
    ensures steps { StepsWhere (kept_of graph.old) (kept_of graph.new) (HasEvents place) (λ w v. HasEvents place v × IsSameButNotes w v) }
    ensures files { KeepsAllFiles graph.old graph.new }
    ensures fewer { IsTrue result → notes_at place (look_of graph.new) < notes_at place (look_of graph.old) }
    ensures none { IsFalse result → notes_at place (look_of graph.new) ≡ 0 }
{
    let h = handle(graph, place);
    graph.law_of_worlds();
    match graph.take_note(h) {
        Ok(Took::Call(call)) => {
            let client = told_of(call);
            graph.law_of_worlds();
            graph.end_note(h, client);
            true
        }
        Ok(Took::None) => false,
        Ok(Took::Busy) => unreachable!(),
        Err(_) => unreachable!(),
    }
}

/// Takes all its notes.
pub(crate) fn take_notes<S: Source, K: Sink>(graph: &mut Graph<S, K, PlayClient>, place: u32)
    requires { StandsFor (HasEvents place) graph.old }
    ensures steps { StepsWhere (kept_of graph.old) (kept_of graph.new) (HasEvents place) (λ w v. HasEvents place v × IsSameButNotes w v) }
    ensures files { KeepsAllFiles graph.old graph.new }
    ensures none { notes_at place (look_of graph.new) ≡ 0 }
{
    while take_next(graph, place) {}
}
