//! A board.
ghost use Rattle.std.specs.Prelude.{◌≡◌, ◌≤◌, length};
ghost use Rattle.std.specs.Arc.{arc_value};
ghost use Rattle.state_words.specs.Tokens.{count};

use crate::watched::Watched;
use note_queues::Client;
use omx_types::Handle;
use outside_io::{Sink, Source};
use state_words::StateWords;
use std::alloc::Global;
use std::sync::Arc;
use turnstile::Turnstile;

/// A graph that threads share, and whose states they read without a turn.
pub struct Board<S: Source, K: Sink, C: Client> {
    pub(crate) turns: Turnstile<Watched<S, K, C>>,
    /// The words and the handles of the turnstile's value.
    pub(crate) words: Arc<StateWords, Global>,
    pub(crate) handles: Vec<Handle>,
    ghost same_words: { arc_value words ≡ arc_value turns.table.shared.key.words },
    ghost same_handles: { handles.items ≡ turns.table.shared.key.handles.items },
    ghost few: { length handles.items ≤ 32 },
    ghost counted: { count (arc_value words) ≡ length handles.items },
}
