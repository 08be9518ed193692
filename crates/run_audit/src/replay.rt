//! Where a replay stands, and what comes of a line.

use audit_order::Order;
use compared_files::Comparing;
use graph_acts::{LentWork, Served};
use il_machine::Progress;
use note_queues::Client;
use omx_types::{AuditWhy, Handle, PartFault};
use outside_io::Source;
use stream_plan::Plan;

/// A graph on which the lines of a log are replayed, with what is out of it. The lists go by the places of the components.
pub struct Replay<S: Source, C: Client> {
    pub served: Served<S, Comparing<S>, C>,
    pub plan: Plan,
    pub handles: Vec<Handle>,
    pub works: Vec<Option<LentWork<S, Comparing<S>>>>,
    pub clients: Vec<Option<C>>,
    pub told: Vec<Progress>,
    pub order: Order,
}

/// What comes of a line.
#[derive(Clone, Copy)]
pub enum Passed {
    /// It passes each test.
    On,
    /// It doesn't pass this one.
    Stop(AuditWhy),
    /// The step of the work that it brings back failed, of the component at that place.
    Failed { component: usize, fault: PartFault },
}
