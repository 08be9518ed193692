//! A WAV file is played into another file: a source and a sink, joined by a tunnel, whose headers go round while the samples last. Where an
//! answer is another than these calls have here, it stands still: a client of its own would decide what to do.

ghost use Rattle.std.specs.Prelude.{◌≡◌, Ok};

use crate::working::work_once;
use il_graph::{
    Acted, Call, CallError, Client, Command, Format, Freed, Graph, Handle, Param, ParamKey,
    PartFile, PortId, Progress, ProgressClient, State, Taken, Took, Version,
};
use outside_io::{Sink, Source};
use std::alloc::Global;
use std::sync::Wait;
use wav_form::read_head;

/// The definition of the first port.
const PORT: ParamKey = ParamKey {
    version: Version::V112,
    index: 1,
    port: 0,
};

/// Headers of the tunnel, and the bytes of each.
const HEADERS: u32 = 2;

const BYTES: u32 = 4096;

/// The two ends of the tunnel.
#[derive(Clone, Copy)]
struct Ends {
    source: Handle,
    sink: Handle,
}

fn stand_still<T>(rt: &impl Wait, _kept: T) -> ! {
    for _ in rt.forever() {}
    unreachable!()
}

/// The value of an answer that isn't a refusal.
fn sure<T, E>(rt: &impl Wait, answer: Result<T, E>) -> T
    ensures { answer ≡ Ok result }
{
    match answer {
        Ok(value) => value,
        Err(error) => stand_still(rt, error),
    }
}

/// Makes a component with its file. Its port gets the format of the samples.
fn component<S: Source, K: Sink>(
    rt: &impl Wait,
    alloc: Global,
    graph: &mut Graph<S, K, ProgressClient>,
    name: &str,
    format: Format,
    file: PartFile<S, K>,
) -> Handle {
    let h = sure(rt, graph.get_handle(alloc, name, ProgressClient::new()));
    if let Param::Port(mut definition) = sure(rt, graph.get_parameter(h, PORT)) {
        definition.format = format;
        definition.count = HEADERS;
        definition.size = BYTES;
        sure(rt, graph.set_parameter(h, PORT, Param::Port(definition)));
    }
    sure(rt, graph.attach(h, file));
    h
}

/// Takes the component's notes, each of an event, and tells them to its client object.
fn hear<S: Source, K: Sink>(rt: &impl Wait, graph: &mut Graph<S, K, ProgressClient>, h: Handle) {
    for _ in 0..u64::MAX {
        let Call { mut client, taken } = match graph.take_note(h) {
            Ok(Took::Call(call)) => call,
            Ok(Took::None) => return,
            Ok(Took::Busy) => return,
            Err(error) => stand_still(rt, error),
        };
        match taken {
            Taken::Told(event) => client.hear(event),
            Taken::EmptyDone(header) => stand_still(rt, header),
            Taken::FillDone(header) => stand_still(rt, header),
        }
        graph.law_of_worlds();
        graph.end_note(h, client);
    }
}

/// Whether the act was done, and didn't find that it has to wait.
fn did<E>(rt: &impl Wait, answer: Result<Acted, E>) -> bool {
    match sure(rt, answer) {
        Acted::Did => true,
        Acted::Idle(_why) => false,
    }
}

/// One round: what needs no asking is done at both ends, and its notes are told. By default the input makes the tunnel's headers, hands them
/// over to be filled, and gets them back full.
fn go_round<S: Source, K: Sink>(
    rt: &impl Wait,
    graph: &mut Graph<S, K, ProgressClient>,
    ends: Ends,
) {
    for h in [ends.source, ends.sink] {
        let _ran = did(rt, graph.run_command(h));
    }
    let _supplied = did(rt, graph.supply(ends.sink, 0));
    let _released = did(rt, graph.release(ends.sink, 0));
    let _empty_over = did(rt, graph.hand_over(ends.sink, 0));
    let _filled = sure(rt, work_once(graph, ends.source));
    let _full_back = did(rt, graph.hand_back(ends.source, 0));
    let _written = sure(rt, work_once(graph, ends.sink));
    hear(rt, graph, ends.source);
    hear(rt, graph, ends.sink);
}

/// What the component's client object was told.
fn told<S: Source, K: Sink>(
    rt: &impl Wait,
    graph: &Graph<S, K, ProgressClient>,
    h: Handle,
) -> Progress {
    match sure(rt, graph.progress(h)) {
        Some(progress) => progress,
        None => stand_still(rt, ()),
    }
}

/// Sends both components to a state, and waits until both have told it.
fn bring<S: Source, K: Sink>(
    rt: &impl Wait,
    graph: &mut Graph<S, K, ProgressClient>,
    ends: Ends,
    state: State,
) {
    sure(
        rt,
        graph.send_command(ends.source, Command::StateSet(state)),
    );
    sure(rt, graph.send_command(ends.sink, Command::StateSet(state)));
    for _ in 0..u64::MAX {
        go_round(rt, graph, ends);
        let both = [told(rt, graph, ends.source), told(rt, graph, ends.sink)];
        if both.iter().all(|progress| progress.state == Some(state)) {
            return;
        }
    }
}

/// Plays all samples, between the way up and the way down.
fn play_all<S: Source, K: Sink>(
    rt: &impl Wait,
    graph: &mut Graph<S, K, ProgressClient>,
    ends: Ends,
) {
    bring(rt, graph, ends, State::Idle);
    bring(rt, graph, ends, State::Executing);
    for _ in 0..u64::MAX {
        go_round(rt, graph, ends);
        if told(rt, graph, ends.sink).eos {
            break;
        }
    }
    bring(rt, graph, ends, State::Idle);
    bring(rt, graph, ends, State::Loaded);
}

/// Plays the samples of a WAV file into a sink, which gets a WAV file of the same format. Answers what the sink's client object was told, and the
/// file as it stands then.
pub fn copy_file<S: Source + Drop, K: Sink + Drop>(
    rt: &impl Wait,
    alloc: Global,
    mut src: S,
    snk: K,
) -> Result<(Progress, Option<PartFile<S, K>>), CallError> {
    let head = sure(rt, read_head(&mut src));
    let (format, frames) = (head.format, head.frames);
    let mut graph = Graph::<S, K, ProgressClient>::new(alloc, 128)?;
    let from = PartFile::From {
        src,
        format,
        frames,
    };
    let source = component(rt, alloc, &mut graph, "OMX.lab.source.wav", format, from);
    let to = PartFile::To { snk, frames };
    let sink = component(rt, alloc, &mut graph, "OMX.lab.sink.wav", format, to);
    let output = PortId {
        handle: source,
        index: 0,
    };
    let input = PortId {
        handle: sink,
        index: 0,
    };
    let _supplier = sure(rt, graph.setup_tunnel(output, input));
    play_all(rt, &mut graph, Ends { source, sink });
    sure(rt, graph.drop_tunnel(output, input));
    let _source = sure(rt, graph.free_handle(source));
    let Freed { client, file } = sure(rt, graph.free_handle(sink));
    if graph.is_all_in() {
        graph.close();
        Ok((client.progress(), file))
    } else {
        stand_still(rt, graph)
    }
}
