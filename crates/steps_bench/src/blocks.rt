//! Blocks of 4,096 bytes that a gain works on, beside what its kernel alone takes on the same samples.

ghost use Rattle.std.specs.Prelude.{◌≡◌, ◌%◌, length};
ghost use Rattle.il_machine.specs.Look.{Look};
ghost use Rattle.graph_core.specs.Changes.{IsHandedIn};
ghost use Rattle.il_graph.specs.Shown.{look_of};

use crate::client::{Back, end, key, made, noted, reach, set_port, take};
use crate::stopped::{Host, Stopped, stand_still};
use crate::working::{no_work, work};
use header_core::Header;
use il_graph::{Graph, NoFile};
use note_queues::ProgressClient;
use omx_types::{Command, Handle, Param, PortSel, State};
use pcm_ops::gain_into;
use std::io;
use std::time::{Duration, Instant};

type Gains = Graph<NoFile, NoFile, ProgressClient>;

/// The bytes of a block.
const BYTES: usize = 4096;

/// How many blocks a turn has, and how often both are timed.
const BLOCKS: u32 = 20_000;

const TURNS: u32 = 9;

/// The factor in 4096ths.
const FACTOR: u32 = 5000;

/// The header with the bytes, if it has room for them.
fn full(mut header: Header, bytes: &[u8]) -> Header
    ensures { (l : Look) → IsHandedIn header l → IsHandedIn result l }
{
    match header.fill(bytes, 0) {
        Ok(()) => header,
        Err(_) => header,
    }
}

/// The header goes to its port, one of the input with the bytes.
fn hand_in<R: Host>(
    rt: &R,
    graph: &mut Gains,
    h: Handle,
    back: Back,
    bytes: &[u8],
) -> Result<(), Stopped>
    requires { IsHandedIn back.header (look_of graph.old) }
{
    let Back { header, emptied } = back;
    let answer = if emptied {
        graph.empty_this_buffer(h, 0, full(header, bytes))
    } else {
        graph.fill_this_buffer(h, 1, header)
    };
    match answer {
        Ok(()) => Ok(()),
        Err((_error, header)) => Err(stand_still(rt, header)),
    }
}

/// The port, which was disabled, is enabled with its one header, which waits there.
fn open<R: Host>(
    rt: &R,
    graph: &mut Gains,
    h: Handle,
    port: u32,
    bytes: &[u8],
) -> Result<(), Stopped> {
    graph.send_command(h, Command::PortEnable(PortSel::One(port)))?;
    graph.run_command(h)?;
    let header = graph.allocate_buffer(h, port)?;
    let back = Back {
        header,
        emptied: port == 0,
    };
    hand_in(rt, graph, h, back, bytes)?;
    take(rt, graph, h)?;
    Ok(())
}

/// A gain that is Executing, with a header of 4,096 bytes at each port, that of the input full.
fn start<R: Host>(rt: &R, graph: &mut Gains, bytes: &[u8]) -> Result<Handle, Stopped> {
    let h = made(rt.alloc(), graph, "OMX.lab.gain")?;
    graph.set_config(h, key(4, 0), Param::Gain(FACTOR))?;
    set_port(graph, h, 0, true, (1, 4096))?;
    set_port(graph, h, 1, false, (1, 4096))?;
    graph.send_command(h, Command::PortDisable(PortSel::All))?;
    graph.run_command(h)?;
    take(rt, graph, h)?;
    take(rt, graph, h)?;
    reach(rt, graph, h, State::Idle)?;
    reach(rt, graph, h, State::Executing)?;
    open(rt, graph, h, 0, bytes)?;
    open(rt, graph, h, 1, bytes)?;
    Ok(h)
}

/// The header in the component's oldest note goes to its port again.
fn send_again<R: Host>(rt: &R, graph: &mut Gains, h: Handle, bytes: &[u8]) -> Result<(), Stopped> {
    match noted(graph, h)? {
        Some(back) => hand_in(rt, graph, h, back, bytes),
        None => Err(Stopped::Refused),
    }
}

/// The time of the blocks. Between two of them the headers come back and are handed in, which isn't timed.
fn work_all<R: Host>(rt: &R, graph: &mut Gains, h: Handle, bytes: &[u8]) -> Result<u128, Stopped> {
    let mut time = Duration::ZERO;
    for _ in 0..BLOCKS {
        let start = Instant::now(rt)?;
        let laps = work(rt, graph, h)?;
        time = time.saturating_add(start.elapsed(rt)?);
        if laps.is_none() {
            return Err(Stopped::Refused);
        }
        send_again(rt, graph, h, bytes)?;
        send_again(rt, graph, h, bytes)?;
    }
    Ok(time.as_nanos())
}

/// The same on a graph of its own, which is ended on every path.
fn time_works<R: Host>(rt: &R, bytes: &[u8]) -> Result<u128, Stopped> {
    let mut graph = Gains::new(rt.alloc(), 128)?;
    let timed = match start(rt, &mut graph, bytes) {
        Ok(h) => work_all(rt, &mut graph, h, bytes),
        Err(stopped) => Err(stopped),
    };
    end(rt, graph);
    timed
}

/// The same readings of the clock, with nothing between them.
fn time_readings<R: Host>(rt: &R) -> Result<u128, Stopped> {
    let mut time = Duration::ZERO;
    for _ in 0..BLOCKS {
        let start = Instant::now(rt)?;
        let _laps = no_work(rt)?;
        time = time.saturating_add(start.elapsed(rt)?);
    }
    Ok(time.as_nanos())
}

/// The kernel alone on as many blocks.
fn time_kernel<R: Host>(rt: &R, from: &[u8], to: &mut [u8]) -> Result<u128, Stopped>
    requires whole { length from.now % 2 ≡ 0 }
    requires same_length { length from.now ≡ length to.old }
{
    let start = Instant::now(rt)?;
    for _ in 0..BLOCKS {
        gain_into(from, FACTOR, to);
    }
    Ok(start.elapsed(rt)?.as_nanos())
}

/// Nanoseconds of all blocks of a turn.
#[derive(Clone, Copy)]
struct Times {
    readings: u128,
    kernel: u128,
    works: u128,
}

/// The cases take turns.
fn take_turns<R: Host>(rt: &R, bytes: &[u8], to: &mut [u8]) -> Result<Times, Stopped>
    requires whole { length bytes.now % 2 ≡ 0 }
    requires same_length { length bytes.now ≡ length to.old }
{
    let mut best = Times {
        readings: u128::MAX,
        kernel: u128::MAX,
        works: u128::MAX,
    };
    for _ in 0..TURNS {
        best.readings = best.readings.min(time_readings(rt)?);
        best.kernel = best.kernel.min(time_kernel(rt, bytes, to)?);
        best.works = best.works.min(time_works(rt, bytes)?);
    }
    Ok(best)
}

/// The best times.
fn best_times<R: Host>(rt: &R) -> Result<Times, Stopped> {
    let mut bytes = vec![in rt.alloc(); 0_u8; BYTES]?;
    for i in 0..bytes.len() {
        bytes[i] = (i % 251) as u8;
    }
    let mut to = vec![in rt.alloc(); 0_u8; BYTES]?;
    take_turns(rt, &bytes, &mut to)
}

fn report<R: Host>(rt: &R, times: Times) -> io::Result<()> {
    let blocks = u128::from(BLOCKS);
    let works = times.works.saturating_sub(times.readings);
    println!(rt;
        "gain_into on 4096 bytes: {} ns; claim, run and finish: {} ns, {} hundredths",
        times.kernel / blocks,
        works / blocks,
        works.saturating_mul(100) / times.kernel.max(1)
    )
}

pub(crate) fn figures<R: Host>(rt: &R) -> io::Result<()> {
    match best_times(rt) {
        Ok(times) => report(rt, times),
        Err(_) => println!(rt; "blocks: memory was wanting, or a call was refused"),
    }
}
