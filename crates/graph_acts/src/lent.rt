//! Works as passes hold them. Contracts see what is shown of a part in place of the part.

use il_graph::{Done, Work};
use outside_io::{Sink, Source};
use std::marker::Model;

/// A component's work that went out.
pub struct LentWork<S: Source, K: Sink> {
    pub(crate) work: Work<S, K>,
}

impl<S: Source, K: Sink> Model for LentWork<S, K> {
    ghost use Rattle.audio_parts.specs.Shown.{ShownPart, shown_by};
    ghost use Rattle.il_flow.specs.Works.{WorkOf};
    ghost use Rattle.graph_acts.specs.Hiding.{shown_work};

    ghost Value = { WorkOf (ShownPart S K) };

    ghost view = { λ w. shown_work (shown_by S.told K.told K.name) w.work };
}

/// One whose step was done.
pub struct DoneWork<S: Source, K: Sink> {
    pub(crate) done: Done<S, K>,
}

impl<S: Source, K: Sink> Model for DoneWork<S, K> {
    ghost use Rattle.audio_parts.specs.Shown.{ShownPart, shown_by};
    ghost use Rattle.il_flow.specs.Works.{DoneOf};
    ghost use Rattle.graph_acts.specs.Hiding.{shown_done};

    ghost Value = { DoneOf (ShownPart S K) };

    ghost view = { λ d. shown_done (shown_by S.told K.told K.name) d.done };
}
