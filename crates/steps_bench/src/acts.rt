//! Acts on sinks that are Executing, by how many components there are and how many headers each port has.

ghost use Rattle.graph_core.specs.Changes.{IsHandedIn};
ghost use Rattle.il_graph.specs.Shown.{look_of};
ghost use Rattle.il_graph.specs.HandedIn.{KeepsOthersHandedIn, StayHandedIn};

use crate::client::{end, made, order, reach, set_port, take};
use crate::stopped::{Host, Stopped, stand_still};
use header_core::Header;
use il_graph::{Graph, NoFile};
use note_queues::ProgressClient;
use omx_types::{Handle, State};
use std::io;
use std::time::Instant;

type Sinks = Graph<NoFile, NoFile, ProgressClient>;

/// A state is asked for, set, told, and the client object goes back: four acts.
const ACTS: u32 = 200_000;

/// How often each case is timed.
const TURNS: u32 = 7;

/// The components of each case, and the headers of each port.
const CASES: [(u32, u32); 6] = [(1, 2), (1, 32), (8, 2), (8, 32), (32, 2), (32, 32)];

/// The header waits at the sink.
fn hand_in<R: Host>(rt: &R, graph: &mut Sinks, h: Handle, header: Header) -> Result<(), Stopped>
    requires { IsHandedIn header (look_of graph.old) }
    ensures { KeepsOthersHandedIn header (look_of graph.old) (look_of graph.new) }
{
    match graph.empty_this_buffer(h, 0, header) {
        Ok(()) => Ok(()),
        Err((_error, header)) => Err(stand_still(rt, header)),
    }
}

/// The sink, which is on its way to Idle and lacks so many headers, gets them and is Executing. Then they wait there.
fn populate<R: Host>(rt: &R, graph: &mut Sinks, h: Handle, count: u32) -> Result<(), Stopped>
    ensures { StayHandedIn (look_of graph.old) (look_of graph.new) }
{
    if count == 0 {
        take(rt, graph, h)?;
        reach(rt, graph, h, State::Executing)?;
        return Ok(());
    }
    let header = graph.allocate_buffer(h, 0)?;
    let others = populate(rt, graph, h, count - 1);
    hand_in(rt, graph, h, header)?;
    others
}

/// A sink that is Executing, with so many headers.
fn make<R: Host>(rt: &R, graph: &mut Sinks, count: u32) -> Result<Handle, Stopped> {
    let h = made(rt.alloc(), graph, "OMX.lab.sink.wav")?;
    set_port(graph, h, 0, true, (count, 4096))?;
    order(graph, h, State::Idle)?;
    populate(rt, graph, h, count)?;
    Ok(h)
}

/// Makes the sinks, and answers their handles.
fn make_all<R: Host>(
    rt: &R,
    graph: &mut Sinks,
    sinks: u32,
    headers: u32,
) -> Result<Vec<Handle>, Stopped> {
    let mut handles = Vec::new(rt.alloc());
    for _ in 0..sinks {
        let h = make(rt, graph, headers)?;
        match handles.push(h) {
            Ok(()) => {}
            Err(_) => return Err(Stopped::Memory),
        }
    }
    Ok(handles)
}

/// Each sink goes to Pause and back to Executing, in turn.
fn move_all<R: Host>(
    rt: &R,
    graph: &mut Sinks,
    handles: &[Handle],
    rounds: u32,
) -> Result<(), Stopped> {
    for _ in 0..rounds {
        for h in handles {
            reach(rt, graph, *h, State::Pause)?;
            reach(rt, graph, *h, State::Executing)?;
        }
    }
    Ok(())
}

/// The nanoseconds of all acts.
fn time_acts<R: Host>(
    rt: &R,
    graph: &mut Sinks,
    sinks: u32,
    headers: u32,
) -> Result<u128, Stopped> {
    let handles = make_all(rt, graph, sinks, headers)?;
    let start = Instant::now(rt)?;
    move_all(rt, graph, &handles, ACTS / 8 / sinks.max(1))?;
    Ok(start.elapsed(rt)?.as_nanos())
}

/// The same on a graph of its own, which is ended on every path.
fn time_case<R: Host>(rt: &R, sinks: u32, headers: u32) -> Result<u128, Stopped> {
    let mut graph = Sinks::new(rt.alloc(), 128)?;
    let timed = time_acts(rt, &mut graph, sinks, headers);
    end(rt, graph);
    timed
}

/// The best time of each case. The cases take turns.
fn best_times<R: Host>(rt: &R) -> Result<[u128; 6], Stopped> {
    let mut best = [u128::MAX; 6];
    for _ in 0..TURNS {
        for place in 0..6 {
            let (sinks, headers) = CASES[place];
            best[place] = best[place].min(time_case(rt, sinks, headers)?);
        }
    }
    Ok(best)
}

/// Nanoseconds an act, and hundredths of the smallest case.
fn report<R: Host>(rt: &R, case: (u32, u32), least: u128, time: u128) -> io::Result<()> {
    let act = time / u128::from(ACTS);
    let ratio = time.saturating_mul(100) / least.max(1);
    println!(rt;
        "{} components, {} headers a port: {act} ns an act, {ratio} hundredths",
        case.0, case.1
    )
}

pub(crate) fn figures<R: Host>(rt: &R) -> io::Result<()> {
    let Ok(best) = best_times(rt) else {
        return println!(rt; "acts: memory was wanting, or a call was refused");
    };
    for place in 0..6 {
        report(rt, CASES[place], best[0], best[place])?;
    }
    Ok(())
}
