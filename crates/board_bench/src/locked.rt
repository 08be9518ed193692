//! Acts of four threads through a board, beside the same acts through a std `Mutex` round the graph.

ghost use Rattle.std.specs.Prelude.{◌≡◌, ◌<◌, ◌+◌, [], length};
ghost use Rattle.turnstile.specs.Turns.{rooted, parent};
ghost use Rattle.board.specs.Boards.{first_of, pass_view, own_calls, IsOf};
ghost use Rattle.board_uses.specs.Passing.{HoldsNothing};

use crate::graph::{ACTS, SINKS, Sinks, end, start, take};
use crate::shared::{SinkBoard, SinkPass, board_over, share_all};
use crate::stopped::{Host, Stopped, elapsed};
use note_queues::{Client, ProgressClient};
use omx_types::{Command, Handle, State};
use std::sync::Mutex;
use std::thread::Threads;
use std::time::Instant;
use std::{io, thread};

const THREADS: usize = 4;

const ROUNDS: u32 = 1_000;

/// How often each case is timed.
const TURNS: u32 = 7;

/// A thread's pass, and its sinks.
struct Worker {
    pass: SinkPass,
    sinks: [Handle; 2],
}

fn hired(board: &SinkBoard, root: &mut SinkPass, sinks: [Handle; 2]) -> Worker
    requires { IsOf board.now root.old × ((pass_view root.old).number ≡ 0) × ((pass_view root.old).splits < 4) }
    ensures root { IsOf board.now root.new × (pass_view root.new ≡ parent (pass_view root.old)) }
    ensures worker { IsOf board.now result.pass × (own_calls result.pass ≡ []) }
{
    Worker {
        pass: board.split(root),
        sinks,
    }
}

fn meet(board: &SinkBoard, root: &mut SinkPass, worker: Worker)
    requires root { IsOf board.now root.old × ((pass_view root.old).number ≡ 0) }
    requires worker { IsOf board.now worker.pass × HoldsNothing (λ told. told) worker.pass }
    ensures root { IsOf board.now root.new × ((pass_view root.new).number ≡ 0) × ((pass_view root.new).splits ≡ (pass_view root.old).splits) × (own_calls root.new ≡ own_calls root.old) }
    ensures joined { length (pass_view root.new).joined ≡ length (pass_view root.old).joined + 1 }
{
    let Worker { pass, sinks: _ } = worker;
    board.meet(root, pass);
}

/// The nanoseconds of the threads' acts through a board.
fn time_board<R: Host + Threads + Sync>(rt: &R) -> Result<u128, Stopped> {
    let (graph, sinks) = start(rt)?;
    let (board, mut root) = board_over(rt, graph)?;
    let time = time_turns(rt, &board, &mut root, &sinks);
    end(rt, board.close(root));
    time
}

fn time_turns<R: Host + Threads + Sync>(
    rt: &R,
    board: &SinkBoard,
    root: &mut SinkPass,
    sinks: &[Handle; 8],
) -> Result<u128, Stopped>
    requires { IsOf board.now root.old × (pass_view root.old ≡ rooted (first_of board.now)) }
    ensures { IsOf board.now root.new × ((pass_view root.new).number ≡ 0) × (length (pass_view root.new).joined ≡ (pass_view root.new).splits) × (own_calls root.new ≡ []) }
{
    let mut workers = [
        hired(board, root, [sinks[0], sinks[4]]),
        hired(board, root, [sinks[1], sinks[5]]),
        hired(board, root, [sinks[2], sinks[6]]),
        hired(board, root, [sinks[3], sinks[7]]),
    ];
    let began = Instant::now(rt);
    thread::for_each_mut(
        rt,
        workers.as_mut_slice(),
        THREADS,
        &|_index: usize, worker: &mut Worker|
            requires { IsOf board.now worker.old.pass × HoldsNothing (λ told. told) worker.old.pass }
            ensures { IsOf board.entry.now worker.new.pass × HoldsNothing (λ told. told) worker.new.pass }
        {
            share_all(rt, board, &mut worker.pass, &worker.sinks, ROUNDS);
        },
    );
    let time = elapsed(rt, began);
    let [one, two, three, four] = workers;
    meet(board, root, one);
    meet(board, root, two);
    meet(board, root, three);
    meet(board, root, four);
    time
}

/// Four acts under three locks: the client object is given back under that of its note.
fn reach_locked<R: Host>(
    rt: &R,
    graph: &Mutex<&mut Sinks>,
    h: Handle,
    state: State,
) -> Result<(), Stopped> {
    graph.lock(rt).send_command(h, Command::StateSet(state))?;
    graph.lock(rt).run_command(h)?;
    take(rt, &mut **graph.lock(rt), h)
}

/// Each of the sinks goes to Pause and back, so often.
fn lock_all<R: Host>(rt: &R, graph: &Mutex<&mut Sinks>, sinks: &[Handle]) -> Result<(), Stopped> {
    for _ in 0..ROUNDS {
        for h in sinks {
            reach_locked(rt, graph, *h, State::Pause)?;
            reach_locked(rt, graph, *h, State::Executing)?;
        }
    }
    Ok(())
}

/// A thread's sinks, and whether all its acts were made.
#[derive(Clone, Copy, Drop)]
struct Hand {
    sinks: [Handle; 2],
    done: bool,
}

/// The same acts through a lock.
fn time_lock<R: Host + Threads + Sync>(rt: &R) -> Result<u128, Stopped> {
    let (mut graph, sinks) = start(rt)?;
    let time = time_locks(rt, &Mutex::new(&mut graph), &sinks);
    end(rt, graph);
    time
}

fn time_locks<R: Host + Threads + Sync>(
    rt: &R,
    lock: &Mutex<&mut Sinks>,
    sinks: &[Handle; 8],
) -> Result<u128, Stopped> {
    let mut hands = [Hand {
        sinks: [Handle::none(); 2],
        done: false,
    }; THREADS];
    for thread in 0..THREADS {
        hands[thread].sinks = [sinks[thread], sinks[thread + THREADS]];
    }
    let began = Instant::now(rt);
    thread::for_each_mut(
        rt,
        hands.as_mut_slice(),
        THREADS,
        &|_index: usize, hand: &mut Hand| {
            hand.done = lock_all(rt, lock, &hand.sinks).is_ok();
        },
    );
    let time = elapsed(rt, began);
    for hand in hands {
        if !hand.done {
            return Err(Stopped::Refused);
        }
    }
    time
}

pub(crate) fn figures<R: Host + Threads + Sync>(rt: &R) -> io::Result<()> {
    let mut locked = u128::MAX;
    let mut shared = u128::MAX;
    for _ in 0..TURNS {
        match (time_lock(rt), time_board(rt)) {
            (Ok(l), Ok(s)) => {
                locked = locked.min(l);
                shared = shared.min(s);
            }
            _ => return println!(rt; "threads: memory was wanting, or a call was refused"),
        }
    }
    let acts = u128::from(ROUNDS) * u128::from(ACTS) * SINKS as u128;
    println!(rt;
        "an act of four threads through a Mutex: {} ns, through a board {} ns, {} hundredths",
        locked / acts,
        shared / acts,
        shared.saturating_mul(100) / locked.max(1)
    )
}
