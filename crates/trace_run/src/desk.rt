//! What a trace works on: its graph, its named components, the slots of its headers, and its works.

ghost use Rattle.std.specs.Prelude.{◌≡◌, IfOk};
ghost use Rattle.il_graph.specs.Shown.{look_of};
ghost use Rattle.trace_run.specs.Traced.{beginning};
ghost use Rattle.trace_run.specs.Desks.{on_desk};
ghost use Rattle.trace_run.specs.Works.{IsDeskMoment};

use crate::OutOfMemory;
use crate::client::TraceGraph;
use crate::names::NamedComponent;
use crate::slots::Slot;
use crate::works::TraceWork;
use std::alloc::Global;

/// A graph with the components and headers that lines have made, and the works that they claimed.
pub struct Desk {
    pub graph: TraceGraph,
    pub components: Vec<NamedComponent>,
    pub slots: Vec<Slot>,
    pub works: Vec<TraceWork>,
}

impl Desk {
    /// A graph of so many units, in which nothing is made.
    pub fn new(alloc: Global, units: u32) -> Result<Desk, OutOfMemory>
        ensures { IfOk result (λ desk. IsDeskMoment (on_desk desk) (beginning (look_of desk.graph).key units)) }
    {
        Ok(Desk {
            graph: TraceGraph::new(alloc, units)?,
            components: Vec::new(alloc),
            slots: Vec::new(alloc),
            works: Vec::new(alloc),
        })
    }
}
