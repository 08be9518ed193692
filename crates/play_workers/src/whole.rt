//! A graph is played by workers beside one who conducts.

ghost use Rattle.std.specs.Prelude.{◌≡◌, ◌≤◌, ◌+◌, All, length, IfOk, IfErr};
ghost use Rattle.conductor.specs.Casting.{cast_of};
ghost use Rattle.play_forms.specs.Plans.{IsValid};
ghost use Rattle.graph_acts.specs.Plain.{sight_of};
ghost use Rattle.board.specs.Boards.{HasAllBack, first_graph, pass_view};
ghost use Rattle.play_worker.specs.Counts.{TellsZeros};
ghost use Rattle.conducting_thread.specs.Seating.{AreSeatsFor};
ghost use Rattle.play_workers.specs.Rooms.{IsRoomFor};
ghost use Rattle.play_workers.specs.Wholes.{IsRoot, Leaves, Played};

use crate::hiring::start;
use crate::meeting::meet_all;
use crate::ran::Ran;
use crate::room::Room;
use crate::running::run_all;
use board::{Board, BoardPass};
use conducting_thread::ConductingPass;
use conductor::Conductor;
use il_graph::Graph;
use note_queues::Client;
use outside_io::{Sink, Source};
use play_worker::Gate;
use std::alloc::Global;
use std::sync::Wait;
use std::thread::Threads;
use stream_plan::Plan;
use work_signs::Seat;

/// The threads begin, run and end; then each pass is met, and the board is closed.
fn play_on<
    S: Source + Send,
    K: Sink + Send,
    C: Client + Send,
    G: Gate + Send,
    R: Threads + Wait + Sync,
>(
    rt: &R,
    board: Board<S, K, C>,
    root: BoardPass<S, K, C>,
    room: Room<S, K, C, G>,
    plan: &Plan,
    seats: &[Seat],
    conductor: Conductor,
    mut gates: Vec<G>,
) -> Ran<S, K, C, G>
    requires root { IsRoot board root × ((pass_view root).splits ≡ 0) }
    requires room { IsRoomFor (length gates.items) room }
    requires gates { (length gates.items ≤ 8) × All (λ g. TellsZeros (G.counts g)) gates.items }
    requires valid { IsValid plan.now }
    requires seats { AreSeatsFor plan.now seats.now × (length seats.now ≤ 32) }
    requires conductor { conductor ≡ cast_of plan.now }
    ensures played { (P : Played (sight_of C.Client S.Source K.Sink) C.HEADERS seats.now (length gates.items) (first_graph board) result.graph) × Leaves G.counts (sight_of C.Client S.Source K.Sink) plan.now seats.now P.closed.log result }
    ensures whole { HasAllBack (first_graph board) → HasAllBack result.graph }
    ensures many { (length result.gates.items ≡ length gates.items) × (length result.pages.items ≡ length gates.items + 1) }
{
    let Room {
        signs,
        kits,
        hands,
        mut pages,
    } = room;
    let hands = start(&board, root, &mut gates, kits, hands, conductor);
    let mut hands = run_all(rt, &board, &signs, plan, seats, hands);
    let Some(last) = hands.pop() else {
        unreachable!()
    };
    let ConductingPass {
        book,
        conductor,
        ended,
        refused,
        stopped,
    } = last.into_conductor();
    let (mut root, page, row) = book.into_parts();
    row.end();
    pages.push_reserved(page);
    let worst = meet_all(&board, &mut root, seats, hands, &mut pages, &mut gates);
    let graph = board.close(root);
    Ran {
        graph,
        pages,
        gates,
        conductor,
        ended,
        refused,
        worst,
        stopped,
    }
}

/// Plays a graph by a worker for each gate, while the calling thread conducts. `Err` has the graph as it was, where memory was wanting before
/// any thread began; whatever happens later, every pass is met and the graph comes back.
pub fn play_by_workers<
    S: Source + Send,
    K: Sink + Send,
    C: Client + Send,
    G: Gate + Send + Drop,
    R: Threads + Wait + Sync,
>(
    rt: &R,
    alloc: Global,
    graph: Graph<S, K, C>,
    plan: &Plan,
    seats: &[Seat],
    conductor: Conductor,
    gates: Vec<G>,
) -> Result<Ran<S, K, C, G>, Graph<S, K, C>>
    requires gates { (1 ≤ length gates.items) × (length gates.items ≤ 8) × All (λ g. TellsZeros (G.counts g)) gates.items }
    requires valid { IsValid plan.now }
    requires seats { AreSeatsFor plan.now seats.now × (length seats.now ≤ 32) }
    requires conductor { conductor ≡ cast_of plan.now }
    ensures played { IfOk result (λ ran. (P : Played (sight_of C.Client S.Source K.Sink) C.HEADERS seats.now (length gates.items) graph ran.graph) × Leaves G.counts (sight_of C.Client S.Source K.Sink) plan.now seats.now P.closed.log ran) }
    ensures whole { HasAllBack graph → IfOk result (λ ran. HasAllBack ran.graph) }
    ensures many { IfOk result (λ ran. (length ran.gates.items ≡ length gates.items) × (length ran.pages.items ≡ length gates.items + 1)) }
    ensures err { IfErr result (λ back. back ≡ graph) }
{
    let Some(room) = Room::new(alloc, seats.len(), gates.len()) else {
        return Err(graph);
    };
    match Board::new(alloc, graph) {
        Ok((board, root)) => Ok(play_on(rt, board, root, room, plan, seats, conductor, gates)),
        Err((_, graph)) => {
            room.end();
            Err(graph)
        }
    }
}
