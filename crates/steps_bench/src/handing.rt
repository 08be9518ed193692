//! Headers that go round in a tunnel from a sink to a source and back, beside numbers that go through a queue.

use crate::client::{MONO, end, made, order, reach, set_port, take};
use crate::stopped::{Host, Stopped};
use crate::working::{no_work, work};
use il_graph::{Graph, PartFile};
use note_queues::ProgressClient;
use omx_types::{Handle, PortId, State};
use outside_io::{MemorySink, MemorySource};
use std::alloc::Global;
use std::collections::VecDeque;
use std::io;
use std::time::{Duration, Instant};

type Files = Graph<MemorySource, MemorySink, ProgressClient>;

/// How many headers go round in a turn, with one frame each, and how often each case is timed.
const ROUNDS: u32 = 50_000;

const TURNS: u32 = 9;

/// The ends of the tunnel, of which the sink supplies it.
#[derive(Clone, Copy)]
struct Ends {
    source: Handle,
    sink: Handle,
}

/// A file with a frame for each round, and some.
fn file(alloc: Global) -> Result<PartFile<MemorySource, MemorySink>, Stopped> {
    let bytes = vec![in alloc; 1; 200_000]?;
    Ok(PartFile::From {
        src: MemorySource::new(bytes)?,
        format: MONO,
        frames: 100_000,
    })
}

fn first_port(handle: Handle) -> PortId {
    PortId { handle, index: 0 }
}

/// A source with its file and a sink, joined by a tunnel of so many headers of one frame.
fn join(alloc: Global, graph: &mut Files, headers: u32) -> Result<Ends, Stopped> {
    let source = made(alloc, graph, "OMX.lab.source.wav")?;
    let sink = made(alloc, graph, "OMX.lab.sink.wav")?;
    set_port(graph, source, 0, false, (headers, 2))?;
    set_port(graph, sink, 0, true, (headers, 2))?;
    graph.setup_tunnel(first_port(source), first_port(sink))?;
    match graph.attach(source, file(alloc)?) {
        Ok(()) => Ok(Ends { source, sink }),
        Err((error, _file)) => Err(Stopped::from(error)),
    }
}

/// Both ends are Executing, and the sink has the headers.
fn start<R: Host>(rt: &R, graph: &mut Files, headers: u32) -> Result<Ends, Stopped> {
    let ends = join(rt.alloc(), graph, headers)?;
    order(graph, ends.source, State::Idle)?;
    order(graph, ends.sink, State::Idle)?;
    for _ in 0..headers {
        graph.supply(ends.sink, 0)?;
    }
    take(rt, graph, ends.source)?;
    take(rt, graph, ends.sink)?;
    reach(rt, graph, ends.source, State::Executing)?;
    reach(rt, graph, ends.sink, State::Executing)?;
    Ok(ends)
}

/// The sink's first header goes to the source, whose work fills it, and back. What that takes, but for the step.
fn send<R: Host>(rt: &R, graph: &mut Files, ends: Ends) -> Result<Duration, Stopped> {
    let start = Instant::now(rt)?;
    graph.hand_over(ends.sink, 0)?;
    let Some(laps) = work(rt, graph, ends.source)? else {
        return Err(Stopped::Refused);
    };
    graph.hand_back(ends.source, 0)?;
    Ok(laps.beside_step(start, Instant::now(rt)?))
}

/// The time of a header of one round. The sink's work empties it between rounds, which isn't timed.
fn send_all<R: Host>(rt: &R, graph: &mut Files, ends: Ends) -> Result<u128, Stopped> {
    let mut time = Duration::ZERO;
    for _ in 0..ROUNDS {
        time = time.saturating_add(send(rt, graph, ends)?);
        if work(rt, graph, ends.sink)?.is_none() {
            return Err(Stopped::Refused);
        }
    }
    Ok(time.as_nanos())
}

/// The headers are unmade, the ends parted, and the source is freed with its file.
fn part(graph: &mut Files, ends: Ends, headers: u32) -> Result<(), Stopped> {
    for state in [State::Idle, State::Loaded] {
        order(graph, ends.source, state)?;
        order(graph, ends.sink, state)?;
    }
    for _ in 0..headers {
        graph.release(ends.sink, 0)?;
    }
    graph.drop_tunnel(first_port(ends.source), first_port(ends.sink))?;
    let _freed = graph.free_handle(ends.source)?;
    Ok(())
}

/// What the headers take on a graph that is there.
fn time_on<R: Host>(rt: &R, graph: &mut Files, headers: u32) -> Result<u128, Stopped> {
    let ends = start(rt, graph, headers)?;
    let time = send_all(rt, graph, ends)?;
    part(graph, ends, headers)?;
    Ok(time)
}

/// The same on a graph of its own, which is ended on every path.
fn time_headers<R: Host>(rt: &R, headers: u32) -> Result<u128, Stopped> {
    let mut graph = Files::new(rt.alloc(), 128)?;
    let timed = time_on(rt, &mut graph, headers);
    end(rt, graph);
    timed
}

/// The same readings of the clock, with nothing between them.
fn time_readings<R: Host>(rt: &R) -> Result<u128, Stopped> {
    let mut time = Duration::ZERO;
    for _ in 0..ROUNDS {
        let start = Instant::now(rt)?;
        let laps = no_work(rt)?;
        time = time.saturating_add(laps.beside_step(start, Instant::now(rt)?));
    }
    Ok(time.as_nanos())
}

/// A number goes to the back of a queue and the one at its front out, as often.
fn time_numbers<R: Host>(rt: &R) -> Result<u128, Stopped> {
    let mut queue = VecDeque::new(rt.alloc());
    let start = Instant::now(rt)?;
    let mut sum: u64 = 0;
    for number in 0..ROUNDS {
        match queue.push_back(u64::from(number)) {
            Ok(()) => {}
            Err(_) => return Err(Stopped::Memory),
        }
        sum = sum.wrapping_add(queue.pop_front().unwrap_or(0));
    }
    let time = start.elapsed(rt)?.as_nanos();
    if sum == 0 {
        return Err(Stopped::Refused);
    }
    Ok(time)
}

/// The best times.
#[derive(Clone, Copy)]
struct Times {
    readings: u128,
    numbers: u128,
    few: u128,
    many: u128,
}

/// The cases take turns.
fn best_times<R: Host>(rt: &R) -> Result<Times, Stopped> {
    let mut best = Times {
        readings: u128::MAX,
        numbers: u128::MAX,
        few: u128::MAX,
        many: u128::MAX,
    };
    for _ in 0..TURNS {
        best.readings = best.readings.min(time_readings(rt)?);
        best.numbers = best.numbers.min(time_numbers(rt)?);
        best.few = best.few.min(time_headers(rt, 2)?);
        best.many = best.many.min(time_headers(rt, 32)?);
    }
    Ok(best)
}

/// Tenths of a nanosecond that each of the rounds takes.
fn tenths(time: u128) -> u128 {
    time.saturating_mul(10) / u128::from(ROUNDS)
}

fn report<R: Host>(rt: &R, times: Times) -> io::Result<()> {
    let few = times.few.saturating_sub(times.readings);
    let many = times.many.saturating_sub(times.readings);
    println!(rt;
        "a number pushed and popped: {} tenths of a ns",
        tenths(times.numbers)
    )?;
    println!(rt;
        "the readings of the clock, which are taken off: {} tenths of a ns",
        tenths(times.readings)
    )?;
    println!(rt;
        "hand-over, claim, finish, hand-back, 2 headers in the lists: {} tenths of a ns, {} hundredths of a number",
        tenths(few),
        few.saturating_mul(100) / times.numbers.max(1)
    )?;
    println!(rt;
        "the same, 32 headers in the lists: {} tenths of a ns, {} hundredths of that with 2",
        tenths(many),
        many.saturating_mul(100) / few.max(1)
    )
}

pub(crate) fn figures<R: Host>(rt: &R) -> io::Result<()> {
    match best_times(rt) {
        Ok(times) => report(rt, times),
        Err(_) => println!(rt; "headers: memory was wanting, or a call was refused"),
    }
}
