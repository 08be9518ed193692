//! A play ends before its time.

use crate::playing::Playing;
use audio_parts::PartFile;
use outside_io::{Sink, Source};
use play_graph::stop_graph;

impl<S: Source, K: Sink> Playing<S, K> {
    ghost use Rattle.std.specs.Prelude.{◌≡◌, length};
    ghost use Rattle.il_machine.specs.Sound.{Sound};
    ghost use Rattle.il_machine.specs.Whole.{Always};
    ghost use Rattle.il_graph.specs.Shown.{TellWritten};
    ghost use Rattle.play_graph.specs.Ending.{AreFilesOf};
    ghost use Rattle.play_graph.specs.Graphs.{kept_of};
    ghost use Rattle.play_graph.specs.Making.{AreGone};
    ghost use Rattle.play_run.specs.Stopping.{GivesBackStopped};
    ghost use Rattle.play_run.specs.Turning.{HasBrokenOff};
    ghost use Rattle.play_run.specs.declared.failure.Stop.{Stop};

    /// Ends a play in which a part failed or the log wants memory. Each file comes to the place of its component.
    pub fn stop(self, files: &mut [Option<PartFile<S, K>>])
        requires broken_off { (stop : Stop) × HasBrokenOff self stop }
        requires many { length files.old ≡ length self.plan.parts }
        requires gone { AreGone (length self.plan.parts) files.old }
        ensures many { length files.new ≡ length files.old }
        ensures back { GivesBackStopped self files.new }
        ensures sound { Always (kept_of self.graph) Sound }
        ensures written { Always (kept_of self.graph) (TellWritten K.told self.graph) }
        ensures files { AreFilesOf self.graph (length self.plan.parts) files.new }
    {
        let Playing {
            graph,
            plan,
            conductor: _conductor,
            log: _log,
        } = self;
        graph.law_of_worlds();
        stop_graph(graph, &plan, files);
    }
}
