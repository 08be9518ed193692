//! A work is run, and comes back to the graph.

ghost use Rattle.std.specs.Prelude.{◌≡◌, [], IfSome, IsFalse, IsSomeAnd, IsTrue};
ghost use Rattle.graph_core.specs.Clients.{IsPortDone};
ghost use Rattle.il_machine.specs.Whole.{Stands};
ghost use Rattle.il_machine.specs.World.{World};
ghost use Rattle.il_graph.specs.Shown.{kept};
ghost use Rattle.graph_acts.specs.declared.act.Act.TheVariants as asks;
ghost use Rattle.graph_acts.specs.declared.act.Reply.TheVariants as replies;
ghost use Rattle.graph_acts.specs.Holding.{CanFinish, IsGone};
ghost use Rattle.graph_acts.specs.Moving.{Moved};
ghost use Rattle.graph_acts.specs.Plain.{sight_of};
ghost use Rattle.graph_acts.specs.Sinks.{sink_in};
ghost use Rattle.graph_acts.specs.Working.{IsWorkIn, out_of};
ghost use Rattle.run_audit.specs.Returning.{HasOther, IsReturned};

use act_text::TextReply;
use audit_acts::is_same_reply;
use compared_files::Comparing;
use graph_acts::{Act, DoneWork, LentWork, Reply, Served};
use note_queues::Client;
use omx_types::{Handle, PartFault};
use outside_io::{Sink, Source};

/// How a work came back whose return a line says.
#[derive(Clone, Copy)]
pub enum Back {
    /// As the line says.
    Same,
    /// As the line says, but its sink was given bytes that aren't the file's.
    OtherFile,
    /// With other frames.
    Other,
    /// Its step failed.
    Failed(PartFault),
}

/// Whether the sink of the work's part was given a byte that isn't the file's.
fn differs<S: Source>(done: &DoneWork<S, Comparing<S>>) -> bool
    ensures differs { IsTrue result → IsSomeAnd (sink_in done.now.part) (HasOther S.told) }
    ensures same { IsFalse result → IfSome (sink_in done.now.part) (λ snk. snk.other ≡ []) }
{
    match done.sink() {
        Some(sink) => sink.differs(),
        None => false,
    }
}

/// Gives a work whose step was done back to the graph.
fn finish<S: Source, K: Sink, C: Client>(served: &mut Served<S, K, C>, done: DoneWork<S, K>)
    requires { CanFinish (sight_of C.Client S.Source K.Sink) served.old.graph done }
    ensures { Moved (sight_of C.Client S.Source K.Sink) (asks.Finish done) replies.Finish served.old.graph served.new.graph }
{
    match served.answer(Act::Finish(done)) {
        Reply::Finish => {}
        _ => unreachable!(),
    }
}

/// Gives a client object back to its component, which was told all that was given.
pub(crate) fn give_back<S: Source, K: Sink, C: Client>(
    served: &mut Served<S, K, C>,
    h: Handle,
    client: C,
)
    requires { IsGone served.old.graph h × IsPortDone (C.progress client).port }
    ensures { Moved (sight_of C.Client S.Source K.Sink) (asks.EndNote h client) replies.EndNote served.old.graph served.new.graph }
{
    match served.answer(Act::EndNote(h, client)) {
        Reply::EndNote => {}
        _ => unreachable!(),
    }
}

/// Does the step of a work that is out, and gives it back to the graph.
pub(crate) fn bring_back<S: Source, C: Client>(
    served: &mut Served<S, Comparing<S>, C>,
    work: LentWork<S, Comparing<S>>,
    said: &TextReply,
) -> Back
    requires { (w : World) × Stands (kept C.progress served.old.graph) w × IsWorkIn w (out_of work) }
    ensures { IsReturned (sight_of C.Client S.Source ⟦<Comparing<S> as Sink>⟧) S.told served.old.graph served.new.graph work said.now result }
{
    served.graph.law_of_worlds();
    let done = work.run();
    let fault = done.fault();
    let text = TextReply::Finished {
        frames: done.frames(),
    };
    let differs = differs(&done);
    finish(served, done);
    if let Some(fault) = fault {
        return Back::Failed(fault);
    }
    if !is_same_reply(text, said) {
        return Back::Other;
    }
    if differs { Back::OtherFile } else { Back::Same }
}
