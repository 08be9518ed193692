//! What a thread makes its calls with, and reads with.

use crate::watched::Watched;
use note_queues::Client;
use outside_io::{Sink, Source};
use state_words::Reader;
use turnstile::Pass;

/// A pass of a board. One that is dropped is never met, so its board is not closed.
#[derive(Drop)]
pub struct BoardPass<S: Source, K: Sink, C: Client> {
    pub(crate) turn: Pass<Watched<S, K, C>>,
    pub(crate) reader: Reader,
}
