//! What is watched of a graph when its board is made.

use omx_types::{Handle, State};
use state_words::{Reader, Shower, StateWords};
use std::alloc::Global;
use std::sync::Arc;

/// The handles and the states of its components, with the words that show them: one end of them and a copy of the handles for the board,
/// the other for the value that it serves.
pub(crate) struct Looks {
    pub words: Arc<StateWords, Global>,
    pub theirs: Arc<StateWords, Global>,
    pub shower: Shower,
    pub reader: Reader,
    pub copied: Vec<Handle>,
    pub handles: Vec<Handle>,
    pub states: Vec<State>,
}
