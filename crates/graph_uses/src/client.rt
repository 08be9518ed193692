//! A whole client of a graph: it makes a sink, brings it to Executing, hands samples to it, takes its notes, and brings it down again.
//! Where an answer is another than these calls have here, it stands still: a client of its own would decide what to do.

ghost use Rattle.std.specs.Prelude.{◌≡◌, Ok, IfSome};
ghost use Rattle.il_machine.specs.Look.{Look};
ghost use Rattle.graph_core.specs.Changes.{IsHandedIn};
ghost use Rattle.graph_core.specs.Clients.{IsPortDone};
ghost use Rattle.il_graph.specs.HandedIn.{StayHandedIn, IsHandedOut, IsNoteHandedOut};
ghost use Rattle.il_graph.specs.Shown.{look_of};

use crate::working::work_once;
use il_graph::{
    Call, CallError, Client, Command, Freed, Graph, Handle, Header, NoFile, Param, ParamKey,
    Progress, ProgressClient, State, Taken, Took, Version,
};
use std::alloc::Global;
use std::sync::Wait;

/// A graph whose components have no files.
type Plain = Graph<NoFile, NoFile, ProgressClient>;

/// The definition of the first port.
const PORT: ParamKey = ParamKey {
    version: Version::V112,
    index: 1,
    port: 0,
};

fn stand_still(rt: &impl Wait) -> ! {
    for _ in rt.forever() {}
    unreachable!()
}

/// The value of an answer that isn't a refusal.
fn sure<T, E>(rt: &impl Wait, answer: Result<T, E>) -> T
    ensures { answer ≡ Ok result }
{
    match answer {
        Ok(value) => value,
        Err(_error) => stand_still(rt),
    }
}

/// The client object, told the event of the note, and the header of the note.
fn told(call: Call<ProgressClient>) -> (ProgressClient, Option<Header>)
    requires { IsPortDone call.client.port }
    ensures done { IsPortDone result.0.port }
    ensures handed { (l m : Look) → IsNoteHandedOut l m call.taken → IfSome result.1 (λ header. IsHandedOut l m header) }
{
    let Call { mut client, taken } = call;
    match taken {
        Taken::Told(event) => {
            client.hear(event);
            (client, None)
        }
        Taken::EmptyDone(header) | Taken::FillDone(header) => (client, Some(header)),
    }
}

/// Takes the component's oldest note. Its client object, which was told it, is in again; a header in it is the caller's.
fn note(rt: &impl Wait, graph: &mut Plain, h: Handle) -> Option<Header>
    ensures held { StayHandedIn (look_of graph.old) (look_of graph.new) }
    ensures handed { IfSome result (λ header. IsHandedIn header (look_of graph.new)) }
{
    let call = match graph.take_note(h) {
        Ok(Took::Call(call)) => call,
        Ok(Took::None | Took::Busy) | Err(_) => stand_still(rt),
    };
    let (client, header) = told(call);
    graph.law_of_worlds();
    graph.end_note(h, client);
    header
}

/// Takes the note of an event.
fn event(rt: &impl Wait, graph: &mut Plain, h: Handle)
    ensures { StayHandedIn (look_of graph.old) (look_of graph.new) }
{
    match note(rt, graph, h) {
        None => {}
        Some(_header) => stand_still(rt),
    }
}

/// Asks for a state, and lets the component carry it out.
fn ask(rt: &impl Wait, graph: &mut Plain, h: Handle, state: State)
    ensures { StayHandedIn (look_of graph.old) (look_of graph.new) }
{
    sure(rt, graph.send_command(h, Command::StateSet(state)));
    let _acted = sure(rt, graph.run_command(h));
}

/// Brings the sink from Loaded to Executing, with one header. It becomes idle in the call that makes that.
fn brought_up(rt: &impl Wait, graph: &mut Plain, h: Handle) -> Header
    ensures { IsHandedIn result (look_of graph.new) }
{
    if let Param::Port(mut definition) = sure(rt, graph.get_parameter(h, PORT)) {
        definition.count = 1;
        sure(rt, graph.set_parameter(h, PORT, Param::Port(definition)));
    }
    ask(rt, graph, h, State::Idle);
    let header = sure(rt, graph.allocate_buffer(h, 0));
    event(rt, graph, h);
    ask(rt, graph, h, State::Executing);
    event(rt, graph, h);
    header
}

/// Hands the samples over as the end of the stream, and does the sink's work. The header comes back, and then the end is told.
fn played(rt: &impl Wait, graph: &mut Plain, h: Handle, mut header: Header, bytes: &[u8]) -> Header
    requires { IsHandedIn header (look_of graph.old) }
    ensures { IsHandedIn result (look_of graph.new) }
{
    sure(rt, header.fill(bytes, 1));
    sure(rt, graph.empty_this_buffer(h, 0, header));
    let _frames = sure(rt, work_once(graph, h));
    let header = match note(rt, graph, h) {
        Some(header) => header,
        None => stand_still(rt),
    };
    event(rt, graph, h);
    header
}

/// Brings the sink down and frees it: what its client object was told.
fn brought_down(rt: &impl Wait, graph: &mut Plain, h: Handle, header: Header) -> Progress
    requires { IsHandedIn header (look_of graph.old) }
{
    ask(rt, graph, h, State::Idle);
    event(rt, graph, h);
    ask(rt, graph, h, State::Loaded);
    let _none = sure(rt, graph.free_buffer(h, 0, header));
    event(rt, graph, h);
    let Freed { client, file: _ } = sure(rt, graph.free_handle(h));
    client.progress()
}

/// Hands samples of 16 bits, at most 4,096 bytes, to a sink that is made for them and freed again. Answers what its client object was told.
pub fn deliver(rt: &impl Wait, alloc: Global, samples: &[u8]) -> Result<Progress, CallError> {
    let mut graph = Plain::new(alloc, 128)?;
    let told = match graph.get_handle(alloc, "OMX.lab.sink.wav", ProgressClient::new()) {
        Ok(h) => {
            let header = brought_up(rt, &mut graph, h);
            let header = played(rt, &mut graph, h, header, samples);
            Ok(brought_down(rt, &mut graph, h, header))
        }
        Err((error, _client)) => Err(error),
    };
    if graph.is_all_in() {
        graph.close();
        told
    } else {
        stand_still(rt)
    }
}
