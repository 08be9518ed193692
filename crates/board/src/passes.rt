//! A board's passes split and meet, and it ends.
ghost use Rattle.std.specs.Prelude.{◌≡◌, ◌<◌, ◌^◌, [], ◌∷◌, ◌++◌, length};
ghost use Rattle.graph_core.specs.Ending.{IsAllIn};
ghost use Rattle.il_graph.specs.Shown.{look_of};
ghost use Rattle.turnstile.specs.Turns.{parent, child};
ghost use Rattle.turnstile.specs.Passes.{Joined};
ghost use Rattle.state_words.specs.Shown.{Within};
ghost use Rattle.graph_acts.specs.Plain.{sight_of};
ghost use Rattle.graph_acts.specs.Holding.{Clear};
ghost use Rattle.board.specs.Histories.{Legal, MayAsk, graph_of};
ghost use Rattle.board.specs.Boards.{first_of, first_graph, pass_view, own_calls, seen_states, IsOf, HasAllBack, HasNoFiles, Closed};

use crate::boards::Board;
use crate::pass::BoardPass;
use crate::watched::Watched;
use graph_acts::Served;
use il_graph::Graph;
use note_queues::Client;
use outside_io::{Sink, Source};

impl<S: Source, K: Sink, C: Client> Watched<S, K, C> {
    pub(crate) fn into_graph(self) -> Graph<S, K, C>
        ensures { result ≡ graph_of self }
    {
        let Watched {
            served,
            words: _,
            shower: _,
            handles: _,
            states: _,
        } = self;
        let Served { graph, alloc: _ } = served;
        graph
    }
}

impl<S: Source, K: Sink, C: Client> Board<S, K, C> {
    /// A pass that has seen as much as the root.
    pub fn split(&self, root: &mut BoardPass<S, K, C>) -> BoardPass<S, K, C>
        requires pass { IsOf self.now root.old × ((pass_view root.old).number ≡ 0) × ((pass_view root.old).splits < 2 ^ 32) }
        ensures root { IsOf self.now root.new × (pass_view root.new ≡ parent (pass_view root.old)) × (seen_states root.new ≡ seen_states root.old) }
        ensures child { IsOf self.now result × (pass_view result ≡ child (pass_view root.old)) × (seen_states result ≡ seen_states root.old) }
    {
        BoardPass {
            turn: self.turns.split(&mut root.turn),
            reader: self.words.split(&mut root.reader),
        }
    }

    /// The root has then seen one history with all that both had seen, and every state that either had seen.
    pub fn meet(&self, root: &mut BoardPass<S, K, C>, pass: BoardPass<S, K, C>)
        requires root { IsOf self.now root.old × ((pass_view root.old).number ≡ 0) }
        requires pass { IsOf self.now pass × Clear (sight_of C.Client S.Source K.Sink) (own_calls pass) }
        ensures root { IsOf self.now root.new × ((pass_view root.new).number ≡ 0) × ((pass_view root.new).splits ≡ (pass_view root.old).splits) × ((pass_view root.new).mine ≡ (pass_view root.old).mine) }
        ensures listed { (pass_view root.new).joined ≡ (pass_view root.old).joined ++ ((pass_view pass).number, (pass_view pass).mine) ∷ [] }
        ensures history { Joined (Legal (sight_of C.Client S.Source K.Sink)) (MayAsk (sight_of C.Client S.Source K.Sink) C.HEADERS) (first_of self.now) (pass_view root.old) (pass_view pass) (pass_view root.new) }
        ensures known { Within (seen_states root.old) (seen_states root.new) × Within (seen_states pass) (seen_states root.new) }
    {
        let BoardPass { turn, reader } = pass;
        self.turns.join(&mut root.turn, turn);
        self.words.learn(&mut root.reader, reader);
    }

    /// The graph, once each other pass was met. Where nothing was out of it at first, nothing is now; and where then no component has a
    /// file, the graph can be closed.
    pub fn close(self, root: BoardPass<S, K, C>) -> Graph<S, K, C>
        requires root { IsOf self root × ((pass_view root).number ≡ 0) × Clear (sight_of C.Client S.Source K.Sink) (own_calls root) }
        requires joined { length (pass_view root).joined ≡ (pass_view root).splits }
        ensures closed { Closed (sight_of C.Client S.Source K.Sink) C.HEADERS (first_of self) (pass_view root) result }
        ensures whole { HasAllBack (first_graph self) → HasAllBack result }
        ensures all_in { HasAllBack (first_graph self) → HasNoFiles result → IsAllIn (look_of result) }
    {
        let Board {
            turns,
            words: _,
            handles: _,
        } = self;
        let BoardPass { turn, reader: _ } = root;
        let watched = turns.close(turn);
        let graph = watched.into_graph();
        graph.law_of_worlds();
        graph
    }
}
