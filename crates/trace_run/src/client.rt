//! The graph of a trace. Its client objects record their progress alone.

use il_graph::{Graph, NoFile};
use note_queues::HolderClient;

/// The graph of a trace: its sources and sinks get no files.
pub type TraceGraph = Graph<NoFile, NoFile, HolderClient>;
