//! A component's work goes out of a graph, is done away from it, and comes back.

ghost use Rattle.std.specs.Prelude.{◌≡◌, IfOk, IfNone, IfSome, OnErr};
ghost use Rattle.il_machine.specs.Whole.{Steps};
ghost use Rattle.il_graph.specs.Shown.{kept};
ghost use Rattle.graph_uses.specs.Working.{WorkedOnce};

use il_graph::{Claimed, Client, Graph, Handle, OmxError};
use outside_io::{Sink, Source};

/// The frames of one step of the component's part, or None where it has no work.
pub fn work_once<S: Source, K: Sink, C: Client>(
    graph: &mut Graph<S, K, C>,
    h: Handle,
) -> Result<Option<u32>, OmxError>
    ensures worked { IfOk result (λ answer. IfSome answer (λ frames. Steps (kept C.progress graph.old) (kept C.progress graph.new) (WorkedOnce h frames))) }
    ensures idle { IfOk result (λ answer. IfNone answer (graph.new ≡ graph.old)) }
    ensures refused { OnErr result (graph.new ≡ graph.old) }
{
    graph.law_of_worlds();
    let work = match graph.claim(h) {
        Ok(Claimed::Work(work)) => work,
        Ok(Claimed::Busy) => return Ok(None),
        Ok(Claimed::NotRunning) => return Ok(None),
        Ok(Claimed::Ended) => return Ok(None),
        Ok(Claimed::Held(_port)) => return Ok(None),
        Ok(Claimed::NoData(_port)) => return Ok(None),
        Ok(Claimed::NoRoom(_port)) => return Ok(None),
        Ok(Claimed::Events { room: _, need: _ }) => return Ok(None),
        Err(error) => return Err(error),
    };
    let done = work.run();
    let frames = done.frames();
    graph.finish(done);
    Ok(Some(frames))
}
