//! The value that is served in turns, and shows its states.

use graph_acts::Served;
use note_queues::Client;
use omx_types::{Handle, State};
use outside_io::{Sink, Source};
use state_words::{Shower, StateWords};
use std::alloc::Global;
use std::sync::Arc;

/// A graph, with the words that show the states of the components that it had at first, and the last that was shown of each.
pub struct Watched<S: Source, K: Sink, C: Client> {
    pub served: Served<S, K, C>,
    pub words: Arc<StateWords, Global>,
    pub shower: Shower,
    pub handles: Vec<Handle>,
    pub states: Vec<State>,
}
