//! What the machine's laws say of the worlds that a graph stands for.

ghost use Rattle.std.specs.Prelude.{◌≡◌, ◌≤◌, length, Some, None};
ghost use Rattle.omx_types.specs.declared.handle.Handle.{Handle};
ghost use Rattle.il_machine.specs.Whole.{Always};
ghost use Rattle.il_machine.specs.Sound.{Sound};
ghost use Rattle.il_machine.specs.Census.{Census, HasRoom};
ghost use Rattle.il_machine.specs.Due.{IsClosed};
ghost use Rattle.machine_laws.specs.Laws.{NothingDue};
ghost use Rattle.graph_core.specs.Entries.{client_named, look_of};
ghost use Rattle.il_graph.specs.Runs.{AreReturnedWhereSettled, HasLegalTrails, WereAllDue};
ghost use Rattle.il_graph.specs.Shown.{kept, HaveTheirFiles, SoundWhole, TellWritten};
ghost use Rattle.graph_core.specs.Clients.{AreTold, IsOut};

use crate::graph::Graph;
use history_laws::{law_of_queues, law_of_settled, law_of_trails};
use note_queues::Client;
use outside_io::{Sink, Source};

impl<S: Source, K: Sink, C: Client> Graph<S, K, C> {
    /// There is a world that the graph stands for. Each is sound, has its census and its room, at most 32 components, and nothing due; and each
    /// client object that is in has the progress of all events that were given for its component. A component whose work isn't out has its
    /// file object, and a sink's tells what was written to it.
    pub fn law_of_worlds(&self)
        ensures one { SoundWhole (kept C.progress self.now) }
        ensures sound { Always (kept C.progress self.now) Sound }
        ensures census { Always (kept C.progress self.now) Census }
        ensures room { Always (kept C.progress self.now) HasRoom }
        ensures few { Always (kept C.progress self.now) (λ w. length w.components ≤ 32) }
        ensures closed { Always (kept C.progress self.now) IsClosed }
        ensures rests { Always (kept C.progress self.now) NothingDue }
        ensures told { Always (kept C.progress self.now) (AreTold C.progress self.now.core) }
        ensures files { HaveTheirFiles self.now }
        ensures written { Always (kept C.progress self.now) (TellWritten K.told self.now) }
        ensures out { (handle : Handle) → client_named handle self.now.core ≡ Some None → IsOut handle (look_of self.now.core) }
    {
        self.core.law_of_worlds();
    }

    /// What the machine's laws say of each run from the world without components to a world that the graph stands for, whatever
    /// calls it was made of. The graph stays as it is.
    pub fn law_of_machine_runs(&self)
        ensures trails { Always (kept C.progress self.now) HasLegalTrails }
        ensures due { Always (kept C.progress self.now) WereAllDue }
        ensures returned { Always (kept C.progress self.now) AreReturnedWhereSettled }
    {
        law_of_trails();
        law_of_queues();
        law_of_settled();
    }
}
