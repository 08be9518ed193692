//! All threads of a play run at once.

ghost use Rattle.std.specs.Prelude.{◌≡◌, ℕ, ◌<◌, ◌≤◌, All, length, slice_index_or};
ghost use Rattle.play_forms.specs.Plans.{IsValid};
ghost use Rattle.graph_acts.specs.Plain.{sight_of};
ghost use Rattle.conducting_thread.specs.Seating.{AreSeatsFor};
ghost use Rattle.play_workers.specs.declared.hand.Hand.{Hand};
ghost use Rattle.play_workers.specs.Hands.{AreThreads, CanStart, HasStopped, IsHand, StaysHand};

use crate::hand::Hand;
use board::Board;
use note_queues::Client;
use outside_io::{Sink, Source};
use play_worker::Gate;
use std::sync::Wait;
use std::thread;
use std::thread::Threads;
use stream_plan::Plan;
use work_signs::{Seat, Signs};

/// Each hand runs once.
fn run_each<
    S: Source + Send,
    K: Sink + Send,
    C: Client + Send,
    G: Gate + Send,
    R: Threads + Wait + Sync,
>(
    rt: &R,
    board: &Board<S, K, C>,
    signs: &Signs,
    plan: &Plan,
    seats: &[Seat],
    hands: &mut [Hand<S, K, C, G>],
)
    requires hands { All (λ h. IsHand G.counts (sight_of C.Client S.Source K.Sink) board.now plan.now seats.now h × CanStart h) hands.old }
    requires valid { IsValid plan.now }
    requires seats { AreSeatsFor plan.now seats.now × (length seats.now ≤ 32) }
    ensures hands { All (λ h. IsHand G.counts (sight_of C.Client S.Source K.Sink) board.now plan.now seats.now h) hands.new }
    ensures stay { (k : ℕ) (d : Hand S K C G) → k < length hands.old → StaysHand (slice_index_or hands.old k d) (slice_index_or hands.new k d) }
    ensures stop { All HasStopped hands.new }
    ensures many { length hands.new ≡ length hands.old }
{
    let threads = hands.len().max(1);
    thread::for_each_mut(
        rt,
        hands,
        threads,
        &|_index: usize, hand: &mut Hand<S, K, C, G>|
            requires { IsHand G.counts (sight_of C.Client S.Source K.Sink) board.now plan.now seats.now hand.old × CanStart hand.old × IsValid plan.now × AreSeatsFor plan.now seats.now × (length seats.now ≤ 32) }
            ensures { IsHand G.counts (sight_of C.Client S.Source K.Sink) board.entry.now plan.entry.now seats.entry.now hand.new × StaysHand hand.old hand.new × HasStopped hand.new }
        { hand.run(rt, board, signs, plan, seats) },
    );
}

/// The same of a vector.
fn run_hands<
    S: Source + Send,
    K: Sink + Send,
    C: Client + Send,
    G: Gate + Send,
    R: Threads + Wait + Sync,
>(
    rt: &R,
    board: &Board<S, K, C>,
    signs: &Signs,
    plan: &Plan,
    seats: &[Seat],
    mut hands: Vec<Hand<S, K, C, G>>,
) -> Vec<Hand<S, K, C, G>>
    requires hands { All (λ h. IsHand G.counts (sight_of C.Client S.Source K.Sink) board.now plan.now seats.now h × CanStart h) hands.items }
    requires valid { IsValid plan.now }
    requires seats { AreSeatsFor plan.now seats.now × (length seats.now ≤ 32) }
    ensures hands { All (λ h. IsHand G.counts (sight_of C.Client S.Source K.Sink) board.now plan.now seats.now h) result.items }
    ensures stay { (k : ℕ) (d : Hand S K C G) → k < length hands.items → StaysHand (slice_index_or hands.items k d) (slice_index_or result.items k d) }
    ensures stop { All HasStopped result.items }
    ensures many { length result.items ≡ length hands.items }
{
    run_each(rt, board, signs, plan, seats, hands.as_mut_slice());
    hands
}

/// Returns when all have ended. The last of them runs in the calling thread.
pub(crate) fn run_all<
    S: Source + Send,
    K: Sink + Send,
    C: Client + Send,
    G: Gate + Send,
    R: Threads + Wait + Sync,
>(
    rt: &R,
    board: &Board<S, K, C>,
    signs: &Signs,
    plan: &Plan,
    seats: &[Seat],
    hands: Vec<Hand<S, K, C, G>>,
) -> Vec<Hand<S, K, C, G>>
    requires threads { AreThreads G.counts (sight_of C.Client S.Source K.Sink) board.now plan.now seats.now 1 hands.items }
    requires start { All CanStart hands.items }
    requires valid { IsValid plan.now }
    requires seats { AreSeatsFor plan.now seats.now × (length seats.now ≤ 32) }
    ensures threads { AreThreads G.counts (sight_of C.Client S.Source K.Sink) board.now plan.now seats.now 1 result.items }
    ensures stop { All HasStopped result.items }
    ensures many { length result.items ≡ length hands.items }
{
    run_hands(rt, board, signs, plan, seats, hands)
}
