//! All memory that the threads of a play take, before a graph is shared.

ghost use Rattle.std.specs.Prelude.{◌≡◌, ◌≤◌, [], All, IfSome};
ghost use Rattle.play_workers.specs.Rooms.{IsNewKit, IsRoomFor};

use crate::hand::Hand;
use crate::kit::{Kit, end_all, make_all};
use note_queues::Client;
use outside_io::{Sink, Source};
use play_log::PassLog;
use std::alloc::Global;
use work_signs::Signs;

/// The signs, a kit for each pass, and room for the threads and for the pages that they leave. It can't be let go, as the kits can't.
pub(crate) struct Room<S: Source, K: Sink, C: Client, G> {
    pub signs: Signs,
    pub kits: Vec<Kit<S, K, C>>,
    pub hands: Vec<Hand<S, K, C, G>>,
    pub pages: Vec<PassLog>,
}

impl<S: Source, K: Sink, C: Client, G> Room<S, K, C, G> {
    /// Room for the one who conducts and so many workers, in a play of so many components.
    pub(crate) fn new(alloc: Global, components: usize, workers: usize) -> Option<Room<S, K, C, G>>
        requires { workers ≤ 8 }
        ensures { IfSome result (IsRoomFor workers) }
    {
        let Ok(signs) = Signs::new(alloc, components) else {
            return None;
        };
        let Ok(pages) = Vec::with_capacity(alloc, workers + 1) else {
            return None;
        };
        let Some(kits) = make_all(alloc, workers + 1) else {
            return None;
        };
        let Ok(hands) = Vec::with_capacity(alloc, workers + 1) else {
            end_all(kits);
            return None;
        };
        Some(Room {
            signs,
            kits,
            hands,
            pages,
        })
    }

    /// Ends it, unused.
    pub(crate) fn end(self)
        requires { All IsNewKit self.kits.items × (self.hands.items ≡ []) }
    {
        let Room {
            signs: _,
            kits,
            hands,
            pages: _,
        } = self;
        end_all(kits);
        hands.destroy_empty();
    }
}
