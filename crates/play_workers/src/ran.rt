//! What a play by workers leaves.

use conductor::Conductor;
use il_graph::Graph;
use note_queues::Client;
use outside_io::{Sink, Source};
use play_log::PassLog;
use play_worker::Failure;

/// A graph that was played, and what is known of that.
pub struct Ran<S: Source, K: Sink, C: Client, G> {
    pub graph: Graph<S, K, C>,
    /// The lines of each pass: first those of the one who conducted, then those of each worker, in the order of the gates.
    pub pages: Vec<PassLog>,
    pub gates: Vec<G>,
    pub conductor: Conductor,
    /// The conductor answered that the play is over.
    pub ended: bool,
    /// An act of the one who conducts was answered otherwise than a play's is.
    pub refused: bool,
    /// Which of the steps that failed is told.
    pub worst: Option<Failure>,
    /// The one who conducted was told to stop before the play had come to an end: a thread wanted memory.
    pub stopped: bool,
}
