//! Eight sinks that are Executing with their ports disabled, and acts on them: each is sent a state, carries it out, has its note taken
//! and its client object given back.

ghost use Rattle.std.specs.Prelude.{◌≡◌, IfOk};
ghost use Rattle.graph_core.specs.Clients.{IsPortDone};

use crate::stopped::{Host, Stopped, stand_still};
use il_graph::{Graph, NoFile};
use note_queues::{Call, Client, ProgressClient, Taken, Took};
use omx_types::{Command, Handle, OmxError, PortSel, State};
use std::alloc::Global;

pub(crate) type Sinks = Graph<NoFile, NoFile, ProgressClient>;

pub(crate) const SINKS: usize = 8;

/// A sink goes to Pause and back to Executing: eight acts.
pub(crate) const ACTS: u32 = 8;

fn made(alloc: Global, graph: &mut Sinks) -> Result<Handle, Stopped> {
    match graph.get_handle(alloc, "OMX.lab.sink.wav", ProgressClient::new()) {
        Ok(h) => Ok(h),
        Err((error, _client)) => Err(Stopped::from(error)),
    }
}

/// The client object, told the event of the note if it is one.
fn told_of(client: ProgressClient, taken: &Taken) -> ProgressClient
    requires { IsPortDone client.port }
    ensures { IsPortDone result.port }
{
    match taken {
        Taken::Told(event) => {
            let mut next = client;
            next.hear(*event);
            next
        }
        Taken::EmptyDone(_) | Taken::FillDone(_) => client,
    }
}

/// Takes the oldest note, which has no header in it.
pub(crate) fn take<R: Host>(rt: &R, graph: &mut Sinks, h: Handle) -> Result<(), Stopped> {
    let call = match graph.take_note(h) {
        Ok(Took::Call(call)) => call,
        Ok(Took::None | Took::Busy) => return Err(Stopped::Refused),
        Err(error) => return Err(Stopped::from(error)),
    };
    let Call { client, taken } = call;
    let client = told_of(client, &taken);
    graph.law_of_worlds();
    graph.end_note(h, client);
    match taken {
        Taken::Told(_) => Ok(()),
        Taken::EmptyDone(header) | Taken::FillDone(header) => stand_still(rt, header),
    }
}

/// The command is sent, and carried out.
pub(crate) fn order(graph: &mut Sinks, h: Handle, command: Command) -> Result<(), OmxError> {
    graph.send_command(h, command)?;
    graph.run_command(h)?;
    Ok(())
}

fn reach<R: Host>(rt: &R, graph: &mut Sinks, h: Handle, state: State) -> Result<(), Stopped> {
    order(graph, h, Command::StateSet(state))?;
    take(rt, graph, h)
}

/// Each sink goes to Pause and back, so often.
pub(crate) fn move_all<R: Host>(
    rt: &R,
    graph: &mut Sinks,
    sinks: &[Handle; 8],
    rounds: u32,
) -> Result<(), Stopped> {
    for _ in 0..rounds {
        for h in sinks {
            reach(rt, graph, *h, State::Pause)?;
            reach(rt, graph, *h, State::Executing)?;
        }
    }
    Ok(())
}

/// Makes the sinks.
pub(crate) fn make<R: Host>(rt: &R, graph: &mut Sinks) -> Result<[Handle; 8], Stopped> {
    let mut sinks = [Handle::none(); 8];
    for place in 0..SINKS {
        let h = made(rt.alloc(), graph)?;
        order(graph, h, Command::PortDisable(PortSel::All))?;
        take(rt, graph, h)?;
        reach(rt, graph, h, State::Idle)?;
        reach(rt, graph, h, State::Executing)?;
        sinks[place] = h;
    }
    Ok(sinks)
}

/// Ends a graph of which nothing is out.
pub(crate) fn end<R: Host>(rt: &R, graph: Sinks) {
    if graph.is_all_in() {
        graph.close();
    } else {
        stand_still(rt, graph)
    }
}

/// A graph with the sinks.
pub(crate) fn start<R: Host>(rt: &R) -> Result<(Sinks, [Handle; 8]), Stopped> {
    let mut graph = Sinks::new(rt.alloc(), 128)?;
    match make(rt, &mut graph) {
        Ok(sinks) => Ok((graph, sinks)),
        Err(stopped) => {
            end(rt, graph);
            Err(stopped)
        }
    }
}
