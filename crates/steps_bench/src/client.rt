//! What the client of a graph does: it makes components, sets ports, orders states and takes notes.

ghost use Rattle.std.specs.Prelude.{IfOk, IfSome};
ghost use Rattle.graph_core.specs.Clients.{IsPortDone};
ghost use Rattle.graph_core.specs.Changes.{IsHandedIn};
ghost use Rattle.il_graph.specs.Shown.{look_of};
ghost use Rattle.il_graph.specs.HandedIn.{StayHandedIn};

use crate::stopped::{Host, Stopped, stand_still};
use header_core::Header;
use il_graph::Graph;
use note_queues::{Call, Client, ProgressClient, Taken, Took};
use omx_types::{
    Command, Format, Handle, OmxError, Param, ParamKey, PortDefinition, State, Version,
};
use outside_io::{Sink, Source};
use std::alloc::Global;

/// One channel at 8,000 frames a second, so a frame has two bytes.
pub(crate) const MONO: Format = Format::Pcm {
    rate: 8000,
    channels: 1,
};

pub(crate) fn key(index: u32, port: u32) -> ParamKey {
    ParamKey {
        version: Version::V112,
        index,
        port,
    }
}

/// A component of the name.
pub(crate) fn made<S: Source, K: Sink>(
    alloc: Global,
    graph: &mut Graph<S, K, ProgressClient>,
    name: &str,
) -> Result<Handle, Stopped> {
    match graph.get_handle(alloc, name, ProgressClient::new()) {
        Ok(h) => Ok(h),
        Err((error, _client)) => Err(Stopped::from(error)),
    }
}

/// The port carries so many headers of so many bytes.
pub(crate) fn set_port<S: Source, K: Sink>(
    graph: &mut Graph<S, K, ProgressClient>,
    h: Handle,
    port: u32,
    input: bool,
    headers: (u32, u32),
) -> Result<(), OmxError> {
    let definition = PortDefinition {
        input,
        format: MONO,
        count: headers.0,
        size: headers.1,
    };
    graph.set_parameter(h, key(1, port), Param::Port(definition))
}

/// A header that came back in a note, and whether it comes from an input.
pub(crate) struct Back {
    pub(crate) header: Header,
    pub(crate) emptied: bool,
}

/// The client object, told the event of the note if it is one.
fn told_of(client: ProgressClient, taken: &Taken) -> ProgressClient
    requires { IsPortDone client.port }
    ensures { IsPortDone result.port }
{
    match taken {
        Taken::Told(event) => {
            let mut next = client;
            next.hear(*event);
            next
        }
        Taken::EmptyDone(_) | Taken::FillDone(_) => client,
    }
}

/// The header of the component's oldest note, where it is one of a header. The client object, which is told its event, is in again.
pub(crate) fn noted<S: Source, K: Sink>(
    graph: &mut Graph<S, K, ProgressClient>,
    h: Handle,
) -> Result<Option<Back>, OmxError>
    ensures held { StayHandedIn (look_of graph.old) (look_of graph.new) }
    ensures handed { IfOk result (λ answer. IfSome answer (λ back. IsHandedIn back.header (look_of graph.new))) }
{
    let call = match graph.take_note(h) {
        Ok(Took::Call(call)) => call,
        Ok(Took::None | Took::Busy) => return Ok(None),
        Err(error) => return Err(error),
    };
    let Call { client, taken } = call;
    let client = told_of(client, &taken);
    let back = match taken {
        Taken::Told(_) => None,
        Taken::EmptyDone(header) => Some(Back {
            header,
            emptied: true,
        }),
        Taken::FillDone(header) => Some(Back {
            header,
            emptied: false,
        }),
    };
    graph.law_of_worlds();
    graph.end_note(h, client);
    Ok(back)
}

/// Ends a graph of which nothing is out.
pub(crate) fn end<S: Source, K: Sink, R: Host>(rt: &R, graph: Graph<S, K, ProgressClient>) {
    if graph.is_all_in() {
        graph.close();
    } else {
        let _stopped = stand_still(rt, graph);
    }
}

/// Takes the oldest note, which has no header in it.
pub(crate) fn take<S: Source, K: Sink, R: Host>(
    rt: &R,
    graph: &mut Graph<S, K, ProgressClient>,
    h: Handle,
) -> Result<(), Stopped>
    ensures { StayHandedIn (look_of graph.old) (look_of graph.new) }
{
    match noted(graph, h)? {
        None => Ok(()),
        Some(back) => Err(stand_still(rt, back)),
    }
}

/// Orders a state.
pub(crate) fn order<S: Source, K: Sink>(
    graph: &mut Graph<S, K, ProgressClient>,
    h: Handle,
    state: State,
) -> Result<(), OmxError>
    ensures { StayHandedIn (look_of graph.old) (look_of graph.new) }
{
    graph.send_command(h, Command::StateSet(state))?;
    graph.run_command(h)?;
    Ok(())
}

/// Orders a state that is reached at once, and takes the note of that.
pub(crate) fn reach<S: Source, K: Sink, R: Host>(
    rt: &R,
    graph: &mut Graph<S, K, ProgressClient>,
    h: Handle,
    state: State,
) -> Result<(), Stopped>
    ensures { StayHandedIn (look_of graph.old) (look_of graph.new) }
{
    order(graph, h, state)?;
    take(rt, graph, h)
}
