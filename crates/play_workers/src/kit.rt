//! What a pass of a play needs memory for.

ghost use Rattle.std.specs.Prelude.{◌≡◌, All, length, IfSome};
ghost use Rattle.play_workers.specs.Rooms.{IsNewKit};

use board::ActRow;
use note_queues::Client;
use outside_io::{Sink, Source};
use pass_book::SLOTS;
use play_log::PassLog;
use std::alloc::Global;

/// A log without a line, and a row without an act. It can't be let go, as the row can't.
pub(crate) struct Kit<S: Source, K: Sink, C> {
    pub log: PassLog,
    pub row: ActRow<S, K, C>,
}

/// How many acts a row has room for: one at each component.
const ACTS: usize = 32;

impl<S: Source, K: Sink, C: Client> Kit<S, K, C> {
    fn new(alloc: Global) -> Option<Kit<S, K, C>>
        ensures { IfSome result IsNewKit }
    {
        let Ok(log) = PassLog::new(alloc, SLOTS) else {
            return None;
        };
        let Ok(row) = ActRow::new(alloc, ACTS) else {
            return None;
        };
        Some(Kit { log, row })
    }

    fn end(self)
        requires { IsNewKit self }
    {
        let Kit { log: _, row } = self;
        row.end();
    }
}

/// Ends them all, unused.
pub(crate) fn end_all<S: Source, K: Sink, C: Client>(mut kits: Vec<Kit<S, K, C>>)
    requires { All IsNewKit kits.items }
{
    while let Some(kit) = kits.pop() {
        kit.end();
    }
    kits.destroy_empty();
}

/// So many of them.
pub(crate) fn make_all<S: Source, K: Sink, C: Client>(
    alloc: Global,
    count: usize,
) -> Option<Vec<Kit<S, K, C>>>
    ensures new { IfSome result (λ kits. All IsNewKit kits.items) }
    ensures many { IfSome result (λ kits. length kits.items ≡ count) }
{
    let Ok(mut kits) = Vec::with_capacity(alloc, count) else {
        return None;
    };
    while kits.len() < count {
        let Some(kit) = Kit::new(alloc) else {
            end_all(kits);
            return None;
        };
        kits.push_reserved(kit);
    }
    Some(kits)
}
