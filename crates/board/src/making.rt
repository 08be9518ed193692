//! A board is made.
ghost use Rattle.std.specs.Prelude.{◌≡◌, ◌≤◌, length, option_map, slice_get, IfOk, IfErr, OnOk};
ghost use Rattle.il_machine.specs.Whole.{Always};
ghost use Rattle.il_graph.specs.Shown.{kept};
ghost use Rattle.turnstile.specs.Turns.{rooted};
ghost use Rattle.state_words.specs.Shown.{States, firsts};
ghost use Rattle.board.specs.Watching.{seat_of, AreSeats, HasMore};
ghost use Rattle.board.specs.Histories.{known_of};
ghost use Rattle.board.specs.Opening.{AreLooks};
ghost use Rattle.board.specs.Boards.{first_of, first_graph, pass_view, seen_states, IsOf};

use crate::boards::Board;
use crate::looks::Looks;
use crate::pass::BoardPass;
use crate::watched::Watched;
use graph_acts::Served;
use il_graph::Graph;
use note_queues::Client;
use omx_types::{Handle, State};
use outside_io::{Sink, Source};
use state_words::{Reader, StateWords};
use std::alloc::{AllocError, Global};
use std::sync::Arc;
use turnstile::Turnstile;

/// There was no memory.
pub type OutOfMemory = AllocError;

// The handle and the state of the component at the place.
fn seat<S: Source, K: Sink, C: Client>(
    graph: &Graph<S, K, C>,
    place: u32,
) -> Option<(Handle, State)>
    ensures { Always (kept C.progress graph.now) (λ w. result ≡ option_map seat_of (slice_get w.components place)) }
{
    graph.law_of_worlds();
    let h = graph.handle_at(place)?;
    match graph.get_state(h) {
        Ok(state) => Some((h, state)),
        Err(_) => unreachable!(),
    }
}

// The seat comes behind the others, if there is one.
fn add_seat(
    handles: &mut Vec<Handle>,
    states: &mut Vec<State>,
    seat: Option<(Handle, State)>,
) -> Result<(), AllocError>
    ensures { OnOk result (HasMore seat handles.old.items states.old.items handles.new.items states.new.items) }
{
    if let Some((h, state)) = seat {
        handles.push(h)?;
        states.push(state)?;
    }
    Ok(())
}

// The components of the graph, in the order of their numbers, and their states.
fn seats<S: Source, K: Sink, C: Client>(
    alloc: Global,
    graph: &Graph<S, K, C>,
) -> Result<(Vec<Handle>, Vec<State>), AllocError>
    ensures counts { IfOk result (λ r. (length r.0.items ≤ 32) × (length r.1.items ≡ length r.0.items)) }
    ensures seats { IfOk result (λ r. Always (kept C.progress graph.now) (AreSeats r.0.items r.1.items)) }
{
    graph.law_of_worlds();
    let mut handles = Vec::new(alloc);
    let mut states = Vec::new(alloc);
    for place in 0..32u32 {
        add_seat(&mut handles, &mut states, seat(graph, place))?;
    }
    Ok((handles, states))
}

// The seats of the graph, with the words that show them.
fn look_at<S: Source, K: Sink, C: Client>(
    alloc: Global,
    graph: &Graph<S, K, C>,
) -> Result<Looks, AllocError>
    ensures looks { IfOk result AreLooks }
    ensures seats { IfOk result (λ l. Always (kept C.progress graph.now) (AreSeats l.handles.items l.states.items)) }
{
    let (handles, states) = seats(alloc, graph)?;
    let copied = Vec::from_slice(alloc, handles.as_slice())?;
    let (words, shower, reader) = StateWords::new(alloc, states.as_slice())?;
    let Ok(words) = Arc::new(alloc, words) else {
        return Err(AllocError);
    };
    let Ok(theirs) = Arc::try_clone(&words) else {
        return Err(AllocError);
    };
    Ok(Looks {
        words,
        theirs,
        shower,
        reader,
        copied,
        handles,
        states,
    })
}

impl Looks {
    // The value that is served, and what its board and the first pass keep.
    fn over<S: Source, K: Sink, C: Client>(
        self,
        served: Served<S, K, C>,
    ) -> (
        Watched<S, K, C>,
        Arc<StateWords, Global>,
        Vec<Handle>,
        Reader,
    )
        ensures value { result.0 ≡ record { served = served; words = self.theirs; shower = self.shower; handles = self.handles; states = self.states } }
        ensures rest { (result.1 ≡ self.words) × (result.2 ≡ self.copied) × (result.3 ≡ self.reader) }
    {
        let Looks {
            words,
            theirs,
            shower,
            reader,
            copied,
            handles,
            states,
        } = self;
        let watched = Watched {
            served,
            words: theirs,
            shower,
            handles,
            states,
        };
        (watched, words, copied, reader)
    }
}

impl<S: Source, K: Sink, C: Client> Board<S, K, C> {
    /// A board over the graph, whose components' states are shown, and its first pass, the root.
    pub fn new(
        alloc: Global,
        graph: Graph<S, K, C>,
    ) -> Result<(Board<S, K, C>, BoardPass<S, K, C>), (OutOfMemory, Graph<S, K, C>)>
        ensures ok { IfOk result (λ t. IsOf t.0 t.1 × (first_graph t.0 ≡ graph) × (pass_view t.1 ≡ rooted (first_of t.0))) }
        ensures watched { IfOk result (λ t. Always (kept C.progress graph) (λ w. (states : States) × AreSeats (first_of t.0).handles.items states w × (known_of (first_of t.0) ≡ firsts states))) }
        ensures known { IfOk result (λ t. seen_states t.1 ≡ known_of (first_of t.0)) }
        ensures err { IfErr result (λ e. e.1 ≡ graph) }
    {
        graph.law_of_worlds();
        let looks = match look_at(alloc, &graph) {
            Ok(looks) => looks,
            Err(e) => return Err((e, graph)),
        };
        let (watched, words, handles, reader) = looks.over(Served { graph, alloc });
        match Turnstile::new(alloc, watched) {
            Ok((turns, turn)) => {
                let board = Board {
                    turns,
                    words,
                    handles,
                };
                Ok((board, BoardPass { turn, reader }))
            }
            Err((e, watched)) => Err((e, watched.into_graph())),
        }
    }
}
