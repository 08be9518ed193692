//! Times components that are made and freed beside entries that are put into a map and taken out. Figures come only with
//! the word `figures`.
#![tactic(auto)]

use il_graph::{Graph, NoFile};
use note_queues::ProgressClient;
use omx_types::{CallError, Handle};
use std::alloc::{AllocError, Global};
use std::collections::HashMap;
use std::rt::Clock;
use std::sync::Wait;
use std::time::{Duration, Instant};
use std::{env, io, thread};

type Components = Graph<NoFile, NoFile, ProgressClient>;

/// What the benchmark needs of its machine.
trait Host: Alloc<A = Global> + Clock + Print + Wait {}

impl<R: Alloc<A = Global> + Clock + Print + Wait> Host for R {}

/// How many components, and how many entries, are timed in a turn.
const ROUNDS: u32 = 100_000;

/// How often each case is timed.
const TURNS: u32 = 9;

/// Why no figure can be given.
#[derive(Clone, Copy, Debug)]
enum Stopped {
    Memory,
    Refused,
    Clock,
}

impl From<AllocError> for Stopped {
    fn from(_error: AllocError) -> Stopped {
        Stopped::Memory
    }
}

impl From<CallError> for Stopped {
    fn from(error: CallError) -> Stopped {
        match error {
            CallError::OutOfMemory => Stopped::Memory,
            CallError::Omx(_) => Stopped::Refused,
        }
    }
}

impl From<io::Error> for Stopped {
    fn from(_error: io::Error) -> Stopped {
        Stopped::Clock
    }
}

fn made(alloc: Global, graph: &mut Components, name: &str) -> Result<Handle, CallError> {
    match graph.get_handle(alloc, name, ProgressClient::new()) {
        Ok(h) => Ok(h),
        Err((error, _client)) => Err(error),
    }
}

fn freed(graph: &mut Components, h: Handle) -> Result<(), CallError> {
    match graph.free_handle(h) {
        Ok(_freed) => Ok(()),
        Err(error) => Err(CallError::Omx(error)),
    }
}

/// Each component is freed before the next is made.
fn make_newest(alloc: Global, graph: &mut Components, name: &str) -> Result<(), CallError> {
    for _ in 0..ROUNDS {
        let h = made(alloc, graph, name)?;
        freed(graph, h)?;
    }
    Ok(())
}

/// The component that was made first is freed before the next is made.
fn make_oldest(alloc: Global, graph: &mut Components, name: &str) -> Result<(), CallError> {
    for _ in 0..ROUNDS {
        if let Some(h) = graph.handle_at(0) {
            freed(graph, h)?;
        }
        made(alloc, graph, name)?;
    }
    Ok(())
}

fn put_entries(map: &mut HashMap<u64, u64>) -> Result<(), AllocError> {
    for number in 0..ROUNDS {
        map.insert(u64::from(number), 1)?;
        map.remove(&u64::from(number));
    }
    Ok(())
}

/// The order in which components are freed.
#[derive(Clone, Copy, Debug)]
enum Order {
    Newest,
    Oldest,
}

/// Components of a name that are made and freed beside so many others.
#[derive(Clone, Copy)]
struct Case {
    name: &'static str,
    others: u32,
    order: Order,
}

/// A case, of those from 0 to 4.
fn case_at(place: usize) -> Case {
    let (name, others, order) = match place {
        0 => ("OMX.lab.gain", 0, Order::Newest),
        1 => ("OMX.lab.gain", 31, Order::Newest),
        2 => ("OMX.lab.gain", 31, Order::Oldest),
        3 => ("OMX.lab.mixer.8", 31, Order::Newest),
        _ => ("OMX.lab.mixer.8", 31, Order::Oldest),
    };
    Case {
        name,
        others,
        order,
    }
}

/// The nanoseconds of the pairs on the graph.
fn time_pairs<R: Host>(rt: &R, graph: &mut Components, case: Case) -> Result<u128, Stopped> {
    let alloc = rt.alloc();
    for _ in 0..case.others {
        made(alloc, graph, case.name)?;
    }
    let start = Instant::now(rt)?;
    match case.order {
        Order::Newest => make_newest(alloc, graph, case.name)?,
        Order::Oldest => make_oldest(alloc, graph, case.name)?,
    }
    Ok(start.elapsed(rt)?.as_nanos())
}

/// Ends a graph of which nothing is out. One that can't be ended can't be let go either: the program says so, and stands still.
fn end<R: Host>(rt: &R, graph: Components) {
    if graph.is_all_in() {
        graph.close();
        return;
    }
    let _told = println!(rt; "a graph can't be ended: stop this program");
    for _ in rt.forever() {
        thread::sleep(rt, Duration::from_secs(60));
    }
    unreachable!()
}

/// The same on a graph of its own, which is ended on every path.
fn time_case<R: Host>(rt: &R, case: Case) -> Result<u128, Stopped> {
    let mut graph = Components::new(rt.alloc(), 128)?;
    let timed = time_pairs(rt, &mut graph, case);
    end(rt, graph);
    timed
}

fn time_entries<R: Host>(rt: &R) -> Result<u128, Stopped> {
    let mut map = HashMap::new(rt.alloc());
    let start = Instant::now(rt)?;
    put_entries(&mut map)?;
    Ok(start.elapsed(rt)?.as_nanos())
}

/// The best times.
#[derive(Clone, Copy)]
struct Times {
    entries: u128,
    cases: [u128; 5],
}

/// The entries and the cases take turns.
fn best_times<R: Host>(rt: &R) -> Result<Times, Stopped> {
    let mut entries = u128::MAX;
    let mut cases = [u128::MAX; 5];
    for _ in 0..TURNS {
        entries = entries.min(time_entries(rt)?);
        for place in 0..5 {
            cases[place] = cases[place].min(time_case(rt, case_at(place))?);
        }
    }
    Ok(Times { entries, cases })
}

fn hundredths(time: u128, of: u128) -> u128 {
    time.saturating_mul(100) / of.max(1)
}

/// A pair's nanoseconds, and how many hundredths of an entry's and of a lone gain's they are.
fn report<R: Host>(rt: &R, times: Times, text: &str, time: u128) -> io::Result<()> {
    let pair = time / u128::from(ROUNDS);
    let of_entry = hundredths(time, times.entries);
    let of_gain = hundredths(time, times.cases[0]);
    println!(rt;
        "{text}: {pair} ns a pair, {of_entry} hundredths of an entry, {of_gain} of a gain alone"
    )
}

fn figures<R: Host>(rt: &R) -> io::Result<()> {
    let Ok(times) = best_times(rt) else {
        return println!(rt; "memory was wanting, or a call was refused");
    };
    report(rt, times, "map entry", times.entries)?;
    report(rt, times, "gain, alone", times.cases[0])?;
    report(rt, times, "gain, newest of 32", times.cases[1])?;
    report(rt, times, "gain, oldest of 32", times.cases[2])?;
    report(rt, times, "mixer of 8, newest of 32", times.cases[3])?;
    report(rt, times, "mixer of 8, oldest of 32", times.cases[4])
}

fn main(rt: HostRuntime) -> io::Result<()> {
    let mut words = env::args(&rt)?;
    let _program = words.next();
    match words.next() {
        Some(word) if word.as_str() == "figures" => figures(&rt),
        _ => println!(rt; "handles_bench: the word figures asks for the figures"),
    }
}
