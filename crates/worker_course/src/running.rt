//! A play by workers, from its plan and its open files to its end.

ghost use Rattle.std.specs.Prelude.{◌≡◌, ◌≤◌, All, List, Option, IfErr, IfOk, length};
ghost use Rattle.audio_parts.specs.declared.part_file.PartFile.{PartFile};
ghost use Rattle.conductor.specs.Casting.{cast_of};
ghost use Rattle.play_course.specs.Players.{CanPlay};
ghost use Rattle.play_course.specs.Running.{AreSameFiles};
ghost use Rattle.play_graph.specs.Making.{AreGone};
ghost use Rattle.play_worker.specs.Counts.{TellsZeros};
ghost use Rattle.worker_course.specs.Answers.{IsBrokenOff, IsDone};
ghost use Rattle.worker_course.specs.Runs.{IsMadeFrom};
ghost use Rattle.worker_course.specs.Sights.{all_seen};

use crate::ending::end_play;
use crate::laws::law_of_made_graphs;
use crate::seating::seats_in;
use audio_parts::PartFile;
use conductor::{Conductor, PlayClient};
use il_graph::Graph;
use outside_io::{Sink, Source};
use play_course::RunFault;
use play_graph::{make_graph, stop_graph};
use play_log::LogText;
use play_worker::Gate;
use play_workers::play_by_workers;
use std::alloc::Global;
use std::sync::Wait;
use std::thread::Threads;
use stream_plan::Plan;

/// Plays the graph of the plan, which was made with the files that stood there. Where memory is wanting before its play begins it is
/// stopped as it was made.
fn play_graph<S: Source + Send, K: Sink + Send, G: Gate + Send + Drop, R: Threads + Wait + Sync>(
    rt: &R,
    alloc: Global,
    graph: Graph<S, K, PlayClient>,
    plan: &Plan,
    conductor: Conductor,
    gates: Vec<G>,
    files: &mut [Option<PartFile<S, K>>],
) -> Result<(LogText, Vec<G>), RunFault>
    requires made { (before : List (Option (PartFile S K))) × IsMadeFrom S.Source K.Sink plan.now before graph }
    requires conductor { conductor ≡ cast_of plan.now }
    requires gates { (1 ≤ length gates.items) × (length gates.items ≤ 8) × All (λ gate. TellsZeros (G.counts gate)) gates.items }
    requires many { length files.old ≡ length plan.now.parts }
    requires gone { AreGone (length plan.now.parts) files.old }
    ensures same { (before : List (Option (PartFile S K))) → IsMadeFrom S.Source K.Sink plan.now before graph
        → AreSameFiles (all_seen S.Source K.Sink before) (all_seen S.Source K.Sink files.new) }
    ensures done { IfOk result (λ done. (before : List (Option (PartFile S K))) → IsMadeFrom S.Source K.Sink plan.now before graph
        → IsDone G.counts (length gates.items) plan.now (all_seen S.Source K.Sink before) (all_seen S.Source K.Sink files.new) done.0 done.1.items) }
    ensures broken_off { IfErr result (λ fault. (before : List (Option (PartFile S K))) → IsMadeFrom S.Source K.Sink plan.now before graph
        → IsBrokenOff plan.now (all_seen S.Source K.Sink before) (all_seen S.Source K.Sink files.new) fault) }
{
    law_of_made_graphs::<S, K>();
    let Some(seats) = seats_in(alloc, &graph, plan) else {
        stop_graph(graph, plan, files);
        return Err(RunFault::OutOfMemory);
    };
    match play_by_workers(rt, alloc, graph, plan, seats.as_slice(), conductor, gates) {
        Ok(ran) => end_play(ran, plan, files),
        Err(graph) => {
            stop_graph(graph, plan, files);
            Err(RunFault::OutOfMemory)
        }
    }
}

/// Plays a plan with its files, by a worker for each gate.
pub(crate) fn play_plan<
    S: Source + Send,
    K: Sink + Send,
    G: Gate + Send + Drop,
    R: Threads + Wait + Sync,
>(
    rt: &R,
    alloc: Global,
    plan: &Plan,
    gates: Vec<G>,
    files: &mut [Option<PartFile<S, K>>],
) -> Result<(LogText, Vec<G>), RunFault>
    requires ready { CanPlay plan.now (all_seen S.Source K.Sink files.old) }
    requires gates { (1 ≤ length gates.items) × (length gates.items ≤ 8) × All (λ gate. TellsZeros (G.counts gate)) gates.items }
    ensures same { AreSameFiles (all_seen S.Source K.Sink files.old) (all_seen S.Source K.Sink files.new) }
    ensures done { IfOk result (λ done. IsDone G.counts (length gates.items) plan.now (all_seen S.Source K.Sink files.old) (all_seen S.Source K.Sink files.new) done.0 done.1.items) }
    ensures broken_off { IfErr result (IsBrokenOff plan.now (all_seen S.Source K.Sink files.old) (all_seen S.Source K.Sink files.new)) }
{
    let Ok(conductor) = Conductor::new(alloc, plan) else {
        return Err(RunFault::OutOfMemory);
    };
    match make_graph(alloc, plan, files) {
        Ok(graph) => play_graph(rt, alloc, graph, plan, conductor, gates, files),
        Err(_) => Err(RunFault::OutOfMemory),
    }
}
