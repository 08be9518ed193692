//! Works: the headers of a component go out for one step of its part, and come back from it.

ghost use Rattle.std.specs.Prelude.{◌≡◌, ◌<◌, ℕ, length, position, slice_get, None, Some, IfErr, IfOk, IfSome, OnErr};
ghost use Rattle.part_api.specs.Terms.{Terms};
ghost use Rattle.il_machine.specs.Whole.{Steps};
ghost use Rattle.il_flow.specs.Steps.{shown};
ghost use Rattle.il_graph.specs.Claiming.{told_by};
ghost use Rattle.il_graph.specs.declared.claimed.Claimed.TheVariants as answers;
ghost use Rattle.act_text.specs.declared.reply.TextReply.TheVariants.{Idle};
ghost use Rattle.trace_run.specs.Replying.{claimed_reply};
ghost use Rattle.trace_run.specs.Standing.{graph_kept};
ghost use Rattle.held_work_laws.specs.Works.{HeldWork, IsOutSomewhere, IsRun};
ghost use Rattle.trace_run.specs.Works.{is_held_by, ClaimedSo, FinishedSo, IsBroughtBack};

use crate::OutOfMemory;
use crate::client::TraceGraph;
use act_text::{TextReply, TextWhy};
use audio_parts::AnyPart;
use il_graph::{Claimed, Done, NoFile, Work};
use omx_types::Handle;
use part_api::Part;
use std::marker::Model;

/// A work that was claimed and not brought back yet.
pub struct TraceWork {
    work: Work<NoFile, NoFile>,
}

impl Model for TraceWork {
    ghost use Rattle.il_flow.specs.Steps.{shown};
    ghost use Rattle.held_work_laws.specs.Works.{HeldWork};

    ghost Value = { HeldWork };

    ghost view = { λ x. record {
      handle = x.work.component;
      terms = ⟦<AnyPart<NoFile, NoFile> as Part>⟧.terms x.work.part;
      failed = ⟦<AnyPart<NoFile, NoFile> as Part>⟧.failed x.work.part;
      part = shown (⟦<AnyPart<NoFile, NoFile> as Part>⟧.left x.work.part) (⟦<AnyPart<NoFile, NoFile> as Part>⟧.rest x.work.part) (⟦<AnyPart<NoFile, NoFile> as Part>⟧.kept x.work.part) (⟦<AnyPart<NoFile, NoFile> as Part>⟧.writing x.work.part);
      headers = x.work.headers;
      announces = x.work.announces;
    } };
}

/// Claims the work of a component, and holds it.
pub fn claim(
    graph: &mut TraceGraph,
    works: &mut Vec<TraceWork>,
    h: Handle,
) -> Result<TextReply, OutOfMemory>
    ensures claimed { IfOk result (λ reply. Steps (graph_kept graph.old) (graph_kept graph.new) (ClaimedSo h works.old.items works.new.items reply)) }
    ensures unchanged { OnErr result (graph_kept graph.new ≡ graph_kept graph.old) }
    ensures none { OnErr result (works.new.items ≡ works.old.items) }
{
    works.reserve(1)?;
    let claimed = match graph.claim(h) {
        Ok(claimed) => claimed,
        Err(error) => return Ok(TextReply::Error(error)),
    };
    match work_or_why(claimed) {
        Ok(work) => {
            works.push_reserved(TraceWork { work });
            Ok(TextReply::Work)
        }
        Err(why) => Ok(TextReply::Idle(why)),
    }
}

/// The work, or why there is none.
fn work_or_why(claimed: Claimed<NoFile, NoFile>) -> Result<Work<NoFile, NoFile>, TextWhy>
    ensures work { IfOk result (λ work. claimed ≡ answers.Work work) }
    ensures why { IfErr result (λ why. (t : Terms) → claimed_reply (told_by t claimed) ≡ Idle why) }
{
    match claimed {
        Claimed::Work(work) => Ok(work),
        Claimed::Busy => Err(TextWhy::WorkOut),
        Claimed::NotRunning => Err(TextWhy::ComponentNotRunning),
        Claimed::Ended => Err(TextWhy::PartEnded),
        Claimed::Held(port) => Err(TextWhy::PortHeld(port)),
        Claimed::NoData(port) => Err(TextWhy::NoData(port)),
        Claimed::NoRoom(port) => Err(TextWhy::NoRoom(port)),
        Claimed::Events { room, need } => Err(TextWhy::Events { room, need }),
    }
}

/// Runs the work of a component that is held, and brings it back.
pub fn finish(graph: &mut TraceGraph, works: &mut Vec<TraceWork>, h: Handle) -> TextReply
    requires { (place : ℕ) (x : HeldWork) → slice_get works.old.items place ≡ Some x → IsOutSomewhere (graph_kept graph.old) x }
    ensures { FinishedSo (graph_kept graph.old) (graph_kept graph.new) h works.old.items works.new.items result }
{
    let Some(place) = place_of(works.as_slice(), h) else {
        return TextReply::NotOut;
    };
    let work = works.remove(place);
    TextReply::Finished {
        frames: bring_back(graph, work),
    }
}

fn place_of(works: &[TraceWork], h: Handle) -> Option<usize>
    ensures place { result ≡ position (is_held_by h) works.now }
    ensures within { IfSome result (λ place. place < length works.now) }
{
    works.iter().position(|held| held.work.component() == h)
}

/// Does the step of the work outside the graph, brings it back, and answers its frames.
pub fn bring_back(graph: &mut TraceGraph, held: TraceWork) -> u32
    requires { IsOutSomewhere (graph_kept graph.old) held }
    ensures { IsBroughtBack (graph_kept graph.old) (graph_kept graph.new) held result }
{
    let done = run(held);
    let frames = done.frames();
    graph.finish(done);
    frames
}

/// Does the step of the work.
fn run(held: TraceWork) -> Done<NoFile, NoFile>
    ensures run { IsRun held result (⟦<AnyPart<NoFile, NoFile> as Part>⟧.terms result.part) (⟦<AnyPart<NoFile, NoFile> as Part>⟧.failed result.part)
        (shown (⟦<AnyPart<NoFile, NoFile> as Part>⟧.left result.part) (⟦<AnyPart<NoFile, NoFile> as Part>⟧.rest result.part) (⟦<AnyPart<NoFile, NoFile> as Part>⟧.kept result.part) (⟦<AnyPart<NoFile, NoFile> as Part>⟧.writing result.part)) }
    ensures whole { result.fault ≡ None }
{
    let TraceWork { work } = held;
    work.run()
}
