//! Graphs and boards whose clients may be given headers.

use board::{Board, BoardPass};
use il_graph::{Graph, NoFile};
use note_queues::HolderClient;
use omx_types::Handle;
use std::alloc::Global;
use std::process::Abort;

pub type Plain = Graph<NoFile, NoFile, HolderClient>;

pub type PlainBoard = Board<NoFile, NoFile, HolderClient>;

pub type PlainPass = BoardPass<NoFile, NoFile, HolderClient>;

/// A component of that name, whose client may be given headers.
pub fn made(rt: &impl Abort, alloc: Global, graph: &mut Plain, name: &str) -> Handle {
    match graph.get_handle(alloc, name, HolderClient::new()) {
        Ok(h) => h,
        Err(_) => panic!(rt; "refused"),
    }
}

/// The graph, which has everything, ends.
pub fn ended(rt: &impl Abort, graph: Plain) {
    if graph.is_all_in() {
        graph.close();
    } else {
        panic!(rt; "something is out");
    }
}
