//! A replay begins.

ghost use Rattle.std.specs.Prelude.{◌≡◌, ◌+◌, ◌<◌, ◌≤◌, ◌++◌, ◌∷◌, [], ℕ, length, replicate, slice_get, vec_capacity, vec_len, Some, None, IfErr, IfOk, OnErr, OnOk};
ghost use Rattle.omx_types.specs.declared.handle.Handle.{Handle as Held};
ghost use Rattle.il_machine.specs.Components.{no_progress};
ghost use Rattle.il_graph.specs.Shown.{offered};
ghost use Rattle.play_graph.specs.Ending.{AreFilesOf};
ghost use Rattle.play_graph.specs.Graphs.{IsHandleAt};
ghost use Rattle.play_graph.specs.Making.{AreGone, AreOffered, CanMake, IsMade};
ghost use Rattle.play_plan_laws.specs.Assemblies.{IsReady, PlayFiles};
ghost use Rattle.run_audit.specs.Opening.{IsUnused, OpensWith};
ghost use Rattle.run_audit.specs.Seeing.{compared};

use crate::replay::Replay;
use audio_parts::PartFile;
use audit_order::Order;
use compared_files::{Comparing, OutOfMemory};
use conductor::PlayClient;
use graph_acts::Served;
use il_graph::Graph;
use il_machine::Progress;
use omx_types::Handle;
use outside_io::{Sink, Source};
use play_graph::{handle, make_graph};
use std::alloc::Global;
use stream_plan::Plan;

/// Puts a thing behind the others, where there is room.
fn put_last<T>(things: &mut Vec<T>, thing: T)
    requires { vec_len things.old < vec_capacity things.old }
    ensures items { things.new.items ≡ things.old.items ++ thing ∷ [] }
    ensures len { vec_len things.new ≡ vec_len things.old + 1 }
    ensures capacity { vec_capacity things.old ≤ vec_capacity things.new }
{
    match things.push(thing) {
        Ok(()) => {}
        Err(_) => unreachable!(),
    }
}

/// Puts nothing at each of so many places, where there is room.
fn put_nothing<T>(things: &mut Vec<Option<T>>, count: usize)
    requires none { things.old.items ≡ [] }
    requires len { vec_len things.old ≡ 0 }
    requires room { count ≤ vec_capacity things.old }
    ensures many { length things.new.items ≡ count }
    ensures each { (place : ℕ) → place < count → slice_get things.new.items place ≡ Some None }
{
    for _ in 0..count {
        put_last(things, None);
    }
}

/// Puts the handles of the first components, where there is room.
fn put_handles<S: Source, K: Sink>(
    handles: &mut Vec<Handle>,
    graph: &Graph<S, K, PlayClient>,
    count: usize,
)
    requires none { handles.old.items ≡ [] }
    requires len { vec_len handles.old ≡ 0 }
    requires room { count ≤ vec_capacity handles.old }
    requires few { count ≤ 32 }
    requires made { (place : ℕ) → place < count → IsMade place graph.now }
    ensures many { length handles.new.items ≡ count }
    ensures each { (place : ℕ) (h : Held) → slice_get handles.new.items place ≡ Some h → IsHandleAt graph.now place h }
{
    for place in 0..count {
        put_last(handles, handle(graph, place as u32));
    }
}

const NOTHING_TOLD: Progress = Progress {
    state: None,
    eos: false,
    error: None,
    settings: None,
    port: None,
};

/// Nothing was told of each of the components.
fn put_untold(told: &mut Vec<Progress>, count: usize)
    requires none { told.old.items ≡ [] }
    requires len { vec_len told.old ≡ 0 }
    requires room { count ≤ vec_capacity told.old }
    ensures { told.new.items ≡ replicate count no_progress }
{
    for _ in 0..count {
        put_last(told, NOTHING_TOLD);
    }
}

impl<S: Source> Replay<S, PlayClient> {
    /// A replay of a plan with its files, which is ready for the first line. The files stand by the places of their components; where memory
    /// is wanted they stay.
    pub(crate) fn new(
        alloc: Global,
        plan: Plan,
        files: &mut [Option<PartFile<S, Comparing<S>>>],
    ) -> Result<Replay<S, PlayClient>, OutOfMemory>
        requires files { CanMake plan (offered S.offset S.size S.told (compared S.Source).told) files.old }
        ensures plan { IfOk result (λ replay. replay.plan ≡ plan) }
        ensures unused { IfOk result IsUnused }
        ensures opens { IfOk result (λ replay. (given : PlayFiles) → IsReady plan given
            → AreOffered plan given (offered S.offset S.size S.told (compared S.Source).told) files.old → OpensWith replay given) }
        ensures many { length files.new ≡ length files.old }
        ensures files { IfOk result (λ replay. AreFilesOf replay.served.graph (length plan.parts) files.old) }
        ensures gone { OnOk result (AreGone (length plan.parts) files.new) }
        ensures unmade { OnErr result (files.new ≡ files.old) }
    {
        let count = plan.parts().len();
        let mut handles = Vec::with_capacity(alloc, count)?;
        let mut clients = Vec::with_capacity(alloc, count)?;
        let mut told = Vec::with_capacity(alloc, count)?;
        let mut works = Vec::with_capacity(alloc, count)?;
        let graph = match make_graph(alloc, &plan, files) {
            Ok(graph) => graph,
            Err(error) => {
                works.destroy_empty();
                return Err(error);
            }
        };
        graph.law_of_worlds();
        put_handles(&mut handles, &graph, count);
        put_nothing(&mut clients, count);
        put_untold(&mut told, count);
        put_nothing(&mut works, count);
        Ok(Replay {
            served: Served { graph, alloc },
            plan,
            handles,
            works,
            clients,
            told,
            order: Order::new(),
        })
    }
}
