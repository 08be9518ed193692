//! Acts through a board, by one thread, beside the same acts on a graph.

ghost use Rattle.std.specs.Prelude.{◌≡◌, [], IfOk};
ghost use Rattle.turnstile.specs.Passes.{IsSamePass};
ghost use Rattle.turnstile.specs.Turns.{rooted};
ghost use Rattle.board.specs.Boards.{first_of, pass_view, IsOf};
ghost use Rattle.board_uses.specs.Passing.{HoldsNothing};

use crate::graph::{ACTS, SINKS, Sinks, end, move_all, start};
use crate::stopped::{Host, Stopped, stand_still};
use board::{Act, Board, BoardPass, Reply};
use board_uses::{Delivered, deliver};
use il_graph::NoFile;
use note_queues::{Client, ProgressClient, Taken};
use omx_types::{Command, Handle, State};
use outside_io::{Sink, Source};
use std::io;
use std::time::Instant;

const ROUNDS: u32 = 3_000;

/// How often each case is timed.
const TURNS: u32 = 7;

pub(crate) type SinkBoard = Board<NoFile, NoFile, ProgressClient>;

pub(crate) type SinkPass = BoardPass<NoFile, NoFile, ProgressClient>;

/// A state is asked for, and the command carried out.
fn order<S: Source, K: Sink, C: Client, R: Host>(
    rt: &R,
    board: &Board<S, K, C>,
    pass: &mut BoardPass<S, K, C>,
    h: Handle,
    state: State,
)
    requires pass { IsOf board.now pass.old }
    requires holds { HoldsNothing C.progress pass.old }
    ensures pass { IsOf board.now pass.new × IsSamePass (pass_view pass.old) (pass_view pass.new) }
    ensures holds { HoldsNothing C.progress pass.new }
{
    match board.call(rt, pass, Act::SendCommand(h, Command::StateSet(state))) {
        Ok((_, Reply::SendCommand(Ok(())))) => {}
        other => stand_still(rt, other),
    }
    match board.call(rt, pass, Act::RunCommand(h)) {
        Ok((_, Reply::RunCommand(Ok(_)))) => {}
        other => stand_still(rt, other),
    }
}

/// Four acts: the state is reached, and the note of it delivered.
fn reach<S: Source, K: Sink, C: Client, R: Host>(
    rt: &R,
    board: &Board<S, K, C>,
    pass: &mut BoardPass<S, K, C>,
    h: Handle,
    state: State,
)
    requires pass { IsOf board.now pass.old }
    requires holds { HoldsNothing C.progress pass.old }
    ensures pass { IsOf board.now pass.new × IsSamePass (pass_view pass.old) (pass_view pass.new) }
    ensures holds { HoldsNothing C.progress pass.new }
{
    order(rt, board, pass, h, state);
    match deliver(rt, board, pass, h) {
        Some(
            Delivered::Note {
                taken: Taken::Told(_),
                taken_at: _,
                ended_at: _,
            },
        ) => {}
        other => stand_still(rt, other),
    }
}

/// Each of the sinks goes to Pause and back, so often.
pub(crate) fn share_all<S: Source, K: Sink, C: Client, R: Host>(
    rt: &R,
    board: &Board<S, K, C>,
    pass: &mut BoardPass<S, K, C>,
    sinks: &[Handle],
    rounds: u32,
)
    requires { IsOf board.now pass.old × HoldsNothing C.progress pass.old }
    ensures pass { IsOf board.now pass.new × IsSamePass (pass_view pass.old) (pass_view pass.new) }
    ensures holds { HoldsNothing C.progress pass.new }
{
    for _ in 0..rounds {
        for h in sinks {
            reach(rt, board, pass, *h, State::Pause);
            reach(rt, board, pass, *h, State::Executing);
        }
    }
}

/// A board over the graph, and its root.
pub(crate) fn board_over<R: Host>(rt: &R, graph: Sinks) -> Result<(SinkBoard, SinkPass), Stopped>
    ensures { IfOk result (λ t. IsOf t.0 t.1 × (pass_view t.1 ≡ rooted (first_of t.0))) }
{
    match Board::new(rt.alloc(), graph) {
        Ok(made) => Ok(made),
        Err((_, graph)) => {
            end(rt, graph);
            Err(Stopped::Memory)
        }
    }
}

/// The nanoseconds of the acts on a graph.
fn time_alone<R: Host>(rt: &R) -> Result<u128, Stopped> {
    let (mut graph, sinks) = start(rt)?;
    let time = time_acts(rt, &mut graph, &sinks);
    end(rt, graph);
    time
}

fn time_acts<R: Host>(rt: &R, graph: &mut Sinks, sinks: &[Handle; 8]) -> Result<u128, Stopped> {
    let began = Instant::now(rt)?;
    move_all(rt, graph, sinks, ROUNDS)?;
    Ok(began.elapsed(rt)?.as_nanos())
}

/// The same through a board.
fn time_shared<R: Host>(rt: &R) -> Result<u128, Stopped> {
    let (graph, sinks) = start(rt)?;
    let (board, mut root) = board_over(rt, graph)?;
    let time = time_turns(rt, &board, &mut root, &sinks);
    end(rt, board.close(root));
    time
}

fn time_turns<S: Source, K: Sink, C: Client, R: Host>(
    rt: &R,
    board: &Board<S, K, C>,
    root: &mut BoardPass<S, K, C>,
    sinks: &[Handle; 8],
) -> Result<u128, Stopped>
    requires { IsOf board.now root.old × HoldsNothing C.progress root.old }
    ensures pass { IsOf board.now root.new × IsSamePass (pass_view root.old) (pass_view root.new) }
    ensures holds { HoldsNothing C.progress root.new }
{
    let began = Instant::now(rt)?;
    share_all(rt, board, root, sinks, ROUNDS);
    Ok(began.elapsed(rt)?.as_nanos())
}

pub(crate) fn figures<R: Host>(rt: &R) -> io::Result<()> {
    let mut alone = u128::MAX;
    let mut shared = u128::MAX;
    for _ in 0..TURNS {
        match (time_alone(rt), time_shared(rt)) {
            (Ok(a), Ok(s)) => {
                alone = alone.min(a);
                shared = shared.min(s);
            }
            _ => return println!(rt; "acts: memory was wanting, or a call was refused"),
        }
    }
    let acts = u128::from(ROUNDS) * u128::from(ACTS) * SINKS as u128;
    println!(rt;
        "an act of a graph: {} ns, through a board by one thread {} ns, {} hundredths",
        alone / acts,
        shared / acts,
        shared.saturating_mul(100) / alone.max(1)
    )
}
