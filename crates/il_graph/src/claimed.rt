//! What a claim of a component's work is answered: the work, or why there is none.

ghost use Rattle.std.specs.Prelude.{◌≡◌};
ghost use Rattle.il_graph.specs.Claiming.{answer_of};

use audio_parts::AnyPart;
use outside_io::{Sink, Source};
use port_rules::NoWork;

/// What one step of a component's part is given. It is run outside the graph.
pub type Work<S, K> = il_flow::Work<AnyPart<S, K>>;

/// A work whose step was done.
pub type Done<S, K> = il_flow::Done<AnyPart<S, K>>;

/// A component's work, or why there is none.
pub enum Claimed<S: Source, K: Sink> {
    Work(Work<S, K>),
    Busy,
    NotRunning,
    Ended,
    /// The port is held, or its format isn't known yet.
    Held(u32),
    /// The input has no header.
    NoData(u32),
    /// The output has no header.
    NoRoom(u32),
    /// There is less room for events than needed.
    Events { room: u32, need: u32 },
}

/// The answer without a work.
pub(crate) fn without_work<S: Source, K: Sink>(idle: NoWork) -> Claimed<S, K>
    ensures { result ≡ answer_of idle }
{
    match idle {
        NoWork::Busy => Claimed::Busy,
        NoWork::NotRunning => Claimed::NotRunning,
        NoWork::Ended => Claimed::Ended,
        NoWork::Held(port) => Claimed::Held(port),
        NoWork::NoData(port) => Claimed::NoData(port),
        NoWork::NoRoom(port) => Claimed::NoRoom(port),
        NoWork::Events { room, need } => Claimed::Events { room, need },
    }
}
