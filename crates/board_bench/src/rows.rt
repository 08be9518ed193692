//! Six acts at a component by one draw of tickets, beside six single calls.

ghost use Rattle.std.specs.Prelude.{◌≡◌, ◌<◌, ◌≤◌, ◌+◌, [], length, None};
ghost use Rattle.turnstile.specs.Passes.{IsSamePass};
ghost use Rattle.turnstile.specs.Turns.{rooted, parent};
ghost use Rattle.graph_acts.specs.Working.{claimed_work};
ghost use Rattle.board.specs.declared.boards.Board.{Board};
ghost use Rattle.board.specs.Boards.{first_of, pass_view, own_calls, IsOf};
ghost use Rattle.board.specs.Rows.{IsRowOf, acts, replies, room_of};
ghost use Rattle.board_uses.specs.Passing.{HoldsNothing};
ghost use Rattle.board_bench.specs.Asking.{CanAsk, IsReady};

use crate::graph::{SINKS, end, start};
use crate::shared::{SinkBoard, SinkPass, board_over};
use crate::stopped::{Host, Stopped, elapsed, stand_still};
use board::{Act, ActRow, Board, BoardPass, LentClaim, Reply};
use board_uses::{Visited, visit};
use il_graph::NoFile;
use note_queues::{Client, ProgressClient};
use omx_types::{Handle, OmxError};
use outside_io::{Sink, Source};
use std::mem::size_of;
use std::thread::Threads;
use std::time::Instant;
use std::{io, thread};

const ROUNDS: u32 = 1_000;

/// How often each case is timed.
const TURNS: u32 = 7;

/// How the six acts are asked.
#[derive(Clone, Copy)]
enum Asking {
    Singly,
    InRow,
}

/// A thread's pass with its row, and its sinks.
struct Asker {
    pass: SinkPass,
    row: ActRow<NoFile, NoFile, ProgressClient>,
    sinks: [Handle; 2],
}

/// A sink whose ports are disabled has no work.
fn no_work<S: Source, K: Sink, R: Host>(rt: &R, claimed: Result<LentClaim<S, K>, OmxError>)
    ensures { claimed_work claimed ≡ None }
{
    match claimed {
        Ok(LentClaim::Work(work)) => stand_still(rt, work),
        Ok(LentClaim::Busy) => {}
        Ok(LentClaim::NotRunning) => {}
        Ok(LentClaim::Ended) => {}
        Ok(LentClaim::Held(_)) => {}
        Ok(LentClaim::NoData(_)) => {}
        Ok(LentClaim::NoRoom(_)) => {}
        Ok(LentClaim::Events { room: _, need: _ }) => {}
        Err(_) => {}
    }
}

/// The three acts that a component's state wants.
fn bring_on<S: Source, K: Sink, C: Client, R: Host>(
    rt: &R,
    board: &Board<S, K, C>,
    pass: &mut BoardPass<S, K, C>,
    h: Handle,
)
    requires pass { IsOf board.now pass.old }
    requires holds { HoldsNothing C.progress pass.old }
    ensures pass { IsOf board.now pass.new × IsSamePass (pass_view pass.old) (pass_view pass.new) }
    ensures holds { HoldsNothing C.progress pass.new }
{
    match board.call(rt, pass, Act::RunCommand(h)) {
        Ok((_, Reply::RunCommand(_))) => {}
        other => stand_still(rt, other),
    }
    match board.call(rt, pass, Act::Supply(h, 0)) {
        Ok((_, Reply::Supply(_))) => {}
        other => stand_still(rt, other),
    }
    match board.call(rt, pass, Act::Release(h, 0)) {
        Ok((_, Reply::Release(_))) => {}
        other => stand_still(rt, other),
    }
}

/// The three acts that move buffers.
fn hand_on<S: Source, K: Sink, C: Client, R: Host>(
    rt: &R,
    board: &Board<S, K, C>,
    pass: &mut BoardPass<S, K, C>,
    h: Handle,
)
    requires pass { IsOf board.now pass.old }
    requires holds { HoldsNothing C.progress pass.old }
    ensures pass { IsOf board.now pass.new × IsSamePass (pass_view pass.old) (pass_view pass.new) }
    ensures holds { HoldsNothing C.progress pass.new }
{
    match board.call(rt, pass, Act::HandBack(h, 0)) {
        Ok((_, Reply::HandBack(_))) => {}
        other => stand_still(rt, other),
    }
    match board.call(rt, pass, Act::HandOver(h, 0)) {
        Ok((_, Reply::HandOver(_))) => {}
        other => stand_still(rt, other),
    }
    match board.call(rt, pass, Act::Claim(h)) {
        Ok((_, Reply::Claim(claimed))) => no_work(rt, claimed),
        other => stand_still(rt, other),
    }
}

fn ask_singly<S: Source, K: Sink, C: Client, R: Host>(
    rt: &R,
    board: &Board<S, K, C>,
    pass: &mut BoardPass<S, K, C>,
    h: Handle,
)
    requires pass { IsOf board.now pass.old }
    requires holds { HoldsNothing C.progress pass.old }
    ensures pass { IsOf board.now pass.new × IsSamePass (pass_view pass.old) (pass_view pass.new) }
    ensures holds { HoldsNothing C.progress pass.new }
{
    bring_on(rt, board, pass, h);
    hand_on(rt, board, pass, h);
}

fn ask_in_row<S: Source, K: Sink, C: Client, R: Host>(
    rt: &R,
    board: &Board<S, K, C>,
    pass: &mut BoardPass<S, K, C>,
    row: &mut ActRow<S, K, C>,
    h: Handle,
)
    requires pass { IsOf board.now pass.old }
    requires holds { HoldsNothing C.progress pass.old }
    requires row { IsReady board.now row.old }
    ensures pass { IsOf board.now pass.new × IsSamePass (pass_view pass.old) (pass_view pass.new) }
    ensures holds { HoldsNothing C.progress pass.new }
    ensures row { IsReady board.now row.new }
{
    match visit(rt, board, pass, row, h, 0) {
        Some(
            Visited {
                place: _,
                ran: _,
                supplied: _,
                released: _,
                handed_back: _,
                handed_over: _,
                claimed,
            },
        ) => no_work(rt, claimed),
        None => stand_still(rt, ()),
    }
}

fn ask<S: Source, K: Sink, C: Client, R: Host>(
    rt: &R,
    board: &Board<S, K, C>,
    pass: &mut BoardPass<S, K, C>,
    row: &mut ActRow<S, K, C>,
    asking: Asking,
    h: Handle,
)
    requires pass { IsOf board.now pass.old }
    requires holds { HoldsNothing C.progress pass.old }
    requires row { IsReady board.now row.old }
    ensures pass { IsOf board.now pass.new × IsSamePass (pass_view pass.old) (pass_view pass.new) }
    ensures holds { HoldsNothing C.progress pass.new }
    ensures row { IsReady board.now row.new }
{
    match asking {
        Asking::Singly => ask_singly(rt, board, pass, h),
        Asking::InRow => ask_in_row(rt, board, pass, row, h),
    }
}

/// Each of the sinks is asked so often.
fn ask_all<S: Source, K: Sink, C: Client, R: Host>(
    rt: &R,
    board: &Board<S, K, C>,
    pass: &mut BoardPass<S, K, C>,
    row: &mut ActRow<S, K, C>,
    asking: Asking,
    sinks: &[Handle],
)
    requires pass { IsOf board.now pass.old }
    requires holds { HoldsNothing C.progress pass.old }
    requires row { IsReady board.now row.old }
    ensures pass { IsOf board.now pass.new × HoldsNothing C.progress pass.new }
    ensures row { IsReady board.now row.new }
{
    for _ in 0..ROUNDS {
        for h in sinks {
            ask(rt, board, pass, row, asking, *h);
        }
    }
}

/// A row for six acts. Where there is no memory for it, nothing can be ended.
fn ready_row<S: Source, K: Sink, C: Client, R: Host>(rt: &R) -> ActRow<S, K, C>
    ensures of { (b : Board S K C) → IsRowOf b result }
    ensures empty { (acts result ≡ []) × (replies result ≡ []) }
    ensures room { room_of result ≡ 6 }
{
    match ActRow::new(rt.alloc(), 6) {
        Ok(row) => row,
        Err(_) => stand_still(rt, ()),
    }
}

fn hired<R: Host>(rt: &R, board: &SinkBoard, root: &mut SinkPass, sinks: [Handle; 2]) -> Asker
    requires { IsOf board.now root.old × ((pass_view root.old).number ≡ 0) × ((pass_view root.old).splits < 4) }
    ensures root { IsOf board.now root.new × (pass_view root.new ≡ parent (pass_view root.old)) }
    ensures asker { CanAsk (λ told. told) board.now result.pass result.row }
{
    Asker {
        row: ready_row(rt),
        pass: board.split(root),
        sinks,
    }
}

fn meet(board: &SinkBoard, root: &mut SinkPass, asker: Asker)
    requires root { IsOf board.now root.old × ((pass_view root.old).number ≡ 0) }
    requires asker { IsOf board.now asker.pass × HoldsNothing (λ told. told) asker.pass }
    requires row { IsReady board.now asker.row }
    ensures root { IsOf board.now root.new × ((pass_view root.new).number ≡ 0) × ((pass_view root.new).splits ≡ (pass_view root.old).splits) × (own_calls root.new ≡ own_calls root.old) }
    ensures joined { length (pass_view root.new).joined ≡ length (pass_view root.old).joined + 1 }
{
    let Asker {
        pass,
        row,
        sinks: _,
    } = asker;
    row.end();
    board.meet(root, pass);
}

/// The nanoseconds of all acts, by so many threads.
fn time<R: Host + Threads + Sync>(rt: &R, threads: usize, asking: Asking) -> Result<u128, Stopped>
    requires { 0 < threads }
{
    let (graph, sinks) = start(rt)?;
    let (board, mut root) = board_over(rt, graph)?;
    let time = time_turns(rt, &board, &mut root, &sinks, threads, asking);
    end(rt, board.close(root));
    time
}

fn time_turns<R: Host + Threads + Sync>(
    rt: &R,
    board: &SinkBoard,
    root: &mut SinkPass,
    sinks: &[Handle; 8],
    threads: usize,
    asking: Asking,
) -> Result<u128, Stopped>
    requires root { IsOf board.now root.old × (pass_view root.old ≡ rooted (first_of board.now)) }
    requires threads { 0 < threads }
    ensures { IsOf board.now root.new × ((pass_view root.new).number ≡ 0) × (length (pass_view root.new).joined ≡ (pass_view root.new).splits) × (own_calls root.new ≡ []) }
{
    let mut askers = [
        hired(rt, board, root, [sinks[0], sinks[4]]),
        hired(rt, board, root, [sinks[1], sinks[5]]),
        hired(rt, board, root, [sinks[2], sinks[6]]),
        hired(rt, board, root, [sinks[3], sinks[7]]),
    ];
    let began = Instant::now(rt);
    thread::for_each_mut(
        rt,
        askers.as_mut_slice(),
        threads,
        &|_index: usize, asker: &mut Asker|
            requires { CanAsk (λ told. told) board.now asker.old.pass asker.old.row }
            ensures { CanAsk (λ told. told) board.entry.now asker.new.pass asker.new.row }
        {
            ask_all(
                rt,
                board,
                &mut asker.pass,
                &mut asker.row,
                asking,
                &asker.sinks,
            );
        },
    );
    let time = elapsed(rt, began);
    let [one, two, three, four] = askers;
    meet(board, root, one);
    meet(board, root, two);
    meet(board, root, three);
    meet(board, root, four);
    time
}

/// The best times of six acts, asked singly and in a row, by so many threads.
fn best<R: Host + Threads + Sync>(rt: &R, threads: usize) -> Result<(u128, u128), Stopped>
    requires { 0 < threads }
{
    let mut singly = u128::MAX;
    let mut in_row = u128::MAX;
    for _ in 0..TURNS {
        singly = singly.min(time(rt, threads, Asking::Singly)?);
        in_row = in_row.min(time(rt, threads, Asking::InRow)?);
    }
    Ok((singly, in_row))
}

pub(crate) fn figures<R: Host + Threads + Sync>(rt: &R) -> io::Result<()> {
    let asked = u128::from(ROUNDS) * SINKS as u128;
    for threads in [1, 4] {
        let Ok((singly, in_row)) = best(rt, threads) else {
            return println!(rt; "rows: memory was wanting, or a call was refused");
        };
        println!(rt;
            "six acts by {threads} threads: singly {} ns, in a row {} ns, {} hundredths",
            singly / asked,
            in_row / asked,
            in_row.saturating_mul(100) / singly.max(1)
        )?;
    }
    println!(rt;
        "an act: {} bytes, a reply {}",
        size_of::<Act<NoFile, NoFile, ProgressClient>>(),
        size_of::<Reply<NoFile, NoFile, ProgressClient>>()
    )
}
