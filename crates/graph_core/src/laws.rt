//! What the machine's laws say of the worlds that a graph stands for.

ghost use Rattle.std.specs.Prelude.{◌≡◌, ◌≤◌, length, Some, None};
ghost use Rattle.omx_types.specs.declared.handle.Handle.{Handle};
ghost use Rattle.stock_laws.specs.Bare.{AlwaysBare};
ghost use Rattle.il_machine.specs.Sound.{Sound};
ghost use Rattle.il_machine.specs.Census.{Census, HasRoom};
ghost use Rattle.graph_core.specs.Entries.{client_named, kept, look_of};
ghost use Rattle.graph_core.specs.Clients.{AreTold, IsOut};
ghost use Rattle.graph_core.specs.Standing.{SoundWorld};

use crate::core_graph::Core;
use note_queues::Client;

impl<C: Client> Core<C> {
    /// There is a world that the graph stands for. Each is sound, has its census and its room, and each client object that is in has the progress
    /// of all events that were given for its component. There are at most 32 components.
    pub fn law_of_worlds(&self)
        ensures one { SoundWorld (kept C.progress self.now) }
        ensures sound { AlwaysBare (kept C.progress self.now) Sound }
        ensures census { AlwaysBare (kept C.progress self.now) Census }
        ensures room { AlwaysBare (kept C.progress self.now) HasRoom }
        ensures told { AlwaysBare (kept C.progress self.now) (AreTold C.progress self.now) }
        ensures few { length self.now.entries ≤ 32 }
        ensures out { (handle : Handle) → client_named handle self.now ≡ Some None → IsOut handle (look_of self.now) }
    {
        // The proof learns from it what always holds of the graph.
        let _ = &self.components;
    }
}
