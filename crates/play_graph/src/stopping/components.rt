//! All components are made Invalid (OpenMAX IL 1.1.2, `OMX_SendCommand`), without a note.

ghost use Rattle.std.specs.Prelude.{◌≤◌, length};
ghost use Rattle.il_machine.specs.Whole.{StepsWhere};
ghost use Rattle.il_graph.specs.Shown.{KeepsAllFiles};
ghost use Rattle.play_build_laws.specs.Halting.{CanStop, IsStoppedIn, KeepsFiles};
ghost use Rattle.play_graph.specs.Graphs.{kept_of};
ghost use Rattle.play_graph.specs.Ending.{StandsFor};
ghost use Rattle.play_graph.specs.Stops.{HasStopped};

use crate::stopping::noting::take_notes;
use crate::{count, handle};
use conductor::PlayClient;
use il_graph::{Command, Graph, State};
use outside_io::{Sink, Source};
use stream_plan::Plan;

/// Makes the component at the place Invalid, which has no note.
fn make_invalid<S: Source, K: Sink>(graph: &mut Graph<S, K, PlayClient>, place: u32)
    requires { StandsFor (CanStop place) graph.old }
    ensures steps { StepsWhere (kept_of graph.old) (kept_of graph.new) (CanStop place) (IsStoppedIn place) }
    ensures files { KeepsAllFiles graph.old graph.new }
{
    let h = handle(graph, place);
    graph.law_of_worlds();
    match graph.send_command(h, Command::StateSet(State::Invalid)) {
        Ok(()) => {}
        Err(_) => unreachable!(),
    }
}

/// Takes the notes of each component and makes it Invalid; the note of that is taken, too.
pub(crate) fn stop_components<S: Source, K: Sink>(graph: &mut Graph<S, K, PlayClient>, plan: &Plan)
    requires few { length plan.now.parts ≤ 32 }
    requires stands { StandsFor (HasStopped plan.now 0) graph.old }
    ensures steps { StepsWhere (kept_of graph.old) (kept_of graph.new) (HasStopped plan.now 0) (λ w v. HasStopped plan.now (length plan.now.parts) v × KeepsFiles w v) }
    ensures files { KeepsAllFiles graph.old graph.new }
{
    for place in 0..count(plan) {
        take_notes(graph, place);
        make_invalid(graph, place);
        take_notes(graph, place);
    }
}
