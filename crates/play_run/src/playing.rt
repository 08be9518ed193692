//! What a play keeps.

use crate::failure::Stop;
use crate::lines::slots_of;
use crate::words::law_of_words;
use audio_parts::PartFile;
use conductor::{Conductor, PlayClient};
use il_graph::{Graph, OutOfMemory};
use outside_io::{Sink, Source};
use play_graph::{end_graph, make_graph};
use play_log::Log;
use play_loop::play_on;
use play_stream_laws::law_of_begun_streams;
use std::alloc::Global;
use std::marker::Model;
use stream_plan::Plan;

/// The graph of a plan's components, in script order, their conductor, and the log of what was done.
pub struct Playing<S: Source, K: Sink> {
    pub(crate) graph: Graph<S, K, PlayClient>,
    pub(crate) plan: Plan,
    pub(crate) conductor: Conductor,
    pub(crate) log: Log,
}

impl<S: Source, K: Sink> Model for Playing<S, K> {
    ghost use Rattle.play_run.specs.Playing.{PlayingValue};

    ghost Value = { PlayingValue S K };

    ghost view = { λ x. record { graph = x.graph; plan = x.plan; conductor = x.conductor; log = x.log } };
}

impl<S: Source, K: Sink> Playing<S, K> {
    ghost use Rattle.std.specs.Prelude.{◌≡◌, length, IfErr, IfOk, OnErr, OnOk};
    ghost use Rattle.il_machine.specs.Whole.{Always};
    ghost use Rattle.il_graph.specs.Shown.{offered, TellWritten};
    ghost use Rattle.play_loop.specs.Turns.{CanPlay, EndsOf};
    ghost use Rattle.audio_parts.specs.Objects.{ObjectShows, ObjectStays};
    ghost use Rattle.play_plan_laws.specs.Assemblies.{IsReady, PlayFiles};
    ghost use Rattle.play_graph.specs.Ending.{AreFilesOf};
    ghost use Rattle.play_graph.specs.Graphs.{kept_of};
    ghost use Rattle.play_graph.specs.Making.{AreGone, AreOffered, CanMake};
    ghost use Rattle.play_run.specs.Closing.{GivesBack, HasBegun, HasPlayed, HasPlayedWith, KeepsLog};
    ghost use Rattle.play_run.specs.Playing.{FilesStay, IsPlaying, layout_of};
    ghost use Rattle.play_run.specs.Turning.{FilesStayed, HasBrokenOff, HasBrokenOffWith, StopShows};

    /// A play of the plan that is ready to begin. Its files stand by the places of their components; where memory is wanted they stay.
    pub fn new(
        alloc: Global,
        plan: Plan,
        files: &mut [Option<PartFile<S, K>>],
    ) -> Result<Playing<S, K>, OutOfMemory>
        requires files { CanMake plan (offered S.offset S.size S.told K.told) files.old }
        ensures plan { IfOk result (λ playing. playing.plan ≡ plan) }
        ensures ready { IfOk result (λ playing. CanPlay (layout_of plan) (IsPlaying playing) 340282366920938463463374607431768211455) }
        ensures begun { IfOk result (λ playing. (given : PlayFiles) → IsReady plan given
            → AreOffered plan given (offered S.offset S.size S.told K.told) files.old → HasBegun playing given) }
        ensures many { length files.new ≡ length files.old }
        ensures files { IfOk result (λ playing. AreFilesOf playing.graph (length plan.parts) files.old) }
        ensures gone { OnOk result (AreGone (length plan.parts) files.new) }
        ensures unmade { OnErr result (files.new ≡ files.old) }
    {
        law_of_begun_streams();
        let conductor = Conductor::new(alloc, &plan)?;
        let log = Log::new(alloc, slots_of(&plan))?;
        let graph = make_graph(alloc, &plan, files)?;
        graph.law_of_worlds();
        law_of_words(plan.frames());
        Ok(Playing {
            graph,
            plan,
            conductor,
            log,
        })
    }

    /// Plays to the end, or until a part fails or the log wants memory.
    pub fn play(&mut self) -> Result<(), Stop>
        requires { CanPlay (layout_of self.old.plan) (IsPlaying self.old) 340282366920938463463374607431768211455 }
        ensures plan { self.new.plan ≡ self.old.plan }
        ensures over { OnOk result (EndsOf (layout_of self.old.plan) (IsPlaying self.old) (IsPlaying self.new)) }
        ensures objects { OnOk result (FilesStay (ObjectStays S.name S.size S.told S.ends S.offset S.faults K.name K.faults) self.old self.new) }
        ensures played { OnOk result ((given : PlayFiles) → HasBegun self.old given → HasPlayedWith self.new given) }
        ensures broken_off { IfErr result (HasBrokenOff self.new) }
        ensures objects_then { OnErr result (FilesStayed (ObjectStays S.name S.size S.told S.ends S.offset S.faults K.name K.faults) self.old self.new) }
        ensures shows { IfErr result (StopShows (ObjectShows S.size S.ends S.offset S.faults K.faults) self.old self.new) }
        ensures broken_off_with { IfErr result (λ stop. (given : PlayFiles) → HasBegun self.old given → HasBrokenOffWith self.new stop given) }
    {
        play_on(self)
    }

    /// Ends a play that is over. Each file comes to the place of its component. The log is that of the whole play.
    pub fn end(self, files: &mut [Option<PartFile<S, K>>]) -> Log
        requires played { HasPlayed self }
        requires many { length files.old ≡ length self.plan.parts }
        requires gone { AreGone (length self.plan.parts) files.old }
        ensures many { length files.new ≡ length files.old }
        ensures back { GivesBack self files.new }
        ensures files { AreFilesOf self.graph (length self.plan.parts) files.new }
        ensures written { Always (kept_of self.graph) (TellWritten K.told self.graph) }
        ensures log { KeepsLog self result }
    {
        let Playing {
            graph,
            plan,
            conductor: _conductor,
            log,
        } = self;
        graph.law_of_worlds();
        end_graph(graph, &plan, files);
        log
    }
}
