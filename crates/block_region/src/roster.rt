//! Which blocks are at home, and the bytes of those. All here but a block's number is ghost state: at run time it is nothing.
ghost use Rattle.std.specs.Prelude.{◌≡◌, ℕ, ◌+◌, ◌*◌, ◌≤◌, Bool, true, false, List, [], ◌∷◌, ◌++◌, length};
ghost use denote.RawPtr.{block_ptr};
ghost use Rattle.block_region.specs.Regions.{RegionKey, is_home, marked, homes};
ghost use Rattle.block_region.specs.Ownership.{key_code, at_home, ticket};

use crate::memory::{Room, Run};
use std::marker::Model;

/// The memory of the blocks at home, and what tells which these are.
pub(crate) struct Roster {
    ghost key: { RegionKey } by { key_code },
    // of each block that ever was out, by its number, whether it is at home; the blocks behind those are
    ghost home: { List Bool },
}

impl Model for Roster {
    ghost also_owns = { λ r. at_home r.key r.home };
}

/// What goes with one block, and tells whether it is at home.
#[derive(Drop)]
pub(crate) struct Ticket {
    ghost key: { RegionKey } by { key_code },
    ghost number: { ℕ },
    ghost home: { Bool },
}

impl Model for Ticket {
    ghost also_owns = { λ t. ticket t.key.names t.number t.home };
}

/// The number of a block, with its ticket.
#[derive(Drop)]
pub(crate) struct Place {
    pub(crate) number: u32,
    pub(crate) ticket: Ticket,
    ghost tied: { number ≡ ticket.number },
}

// Both are no more than ghost state, which any thread may hold.
unsafe impl Send for Roster {}

unsafe impl Send for Ticket {}

impl Roster {
    /// The room as blocks of one size, of which none was ever out.
    pub(crate) fn open(room: Room, blocks: u32, size: u32) -> Roster
        requires { room.len ≡ blocks * size }
        ensures { (result.key.size ≡ size) × (length result.key.names ≡ blocks)
            × (room.ptr ≡ block_ptr result.key.object result.key.start) × (result.home ≡ []) }
    {
        let Room {} = room;
        Roster {}
    }

    /// The room of the first block that was never out.
    pub(crate) fn begin(self, number: u32) -> (Roster, (Ticket, Room))
        requires { (number ≡ length self.home) × (number + 1 ≤ length self.key.names) }
        ensures { (result.0.key ≡ self.key) × (result.0.home ≡ self.home ++ false ∷ [])
            × (result.1.0 ≡ record { key = self.key; number = number; home = false })
            × (result.1.1.ptr ≡ block_ptr self.key.object (self.key.start + number * self.key.size))
            × (result.1.1.len ≡ self.key.size) }
    {
        let Roster {} = self;
        // Only the proof uses the number.
        let _ = number;
        (Roster {}, (Ticket {}, Room {}))
    }

    /// The bytes of a block that was at home.
    pub(crate) fn lend(self, ticket: Ticket) -> (Roster, (Ticket, Run))
        requires { (ticket.key ≡ self.key) × (ticket.home ≡ true) × (ticket.number + 1 ≤ length self.home) }
        ensures { (result.0.key ≡ self.key) × (is_home self.home ticket.number ≡ true)
            × (result.0.home ≡ marked self.home ticket.number false) × (homes result.0.home + 1 ≡ homes self.home)
            × (length result.0.home ≡ length self.home)
            × (result.1.0 ≡ record ticket { home = false })
            × (result.1.1.ptr ≡ block_ptr self.key.object (self.key.start + ticket.number * self.key.size))
            × (length result.1.1.items ≡ self.key.size) }
    {
        let Roster {} = self;
        let Ticket {} = ticket;
        (Roster {}, (Ticket {}, Run {}))
    }

    /// The bytes of a block that was out come home.
    pub(crate) fn put(self, block: (Ticket, Run)) -> (Roster, Ticket)
        requires { (block.0.key ≡ self.key) × (block.0.home ≡ false)
            × (block.1.ptr ≡ block_ptr self.key.object (self.key.start + block.0.number * self.key.size))
            × (length block.1.items ≡ self.key.size) }
        ensures { (result.0.key ≡ self.key) × (is_home self.home block.0.number ≡ false)
            × (result.0.home ≡ marked self.home block.0.number true) × (homes result.0.home ≡ homes self.home + 1)
            × (length result.0.home ≡ length self.home) × (block.0.number + 1 ≤ length self.home) × (result.1 ≡ record block.0 { home = true }) }
    {
        let (ticket, run) = block;
        self.join(ticket, run)
    }

    fn join(self, ticket: Ticket, run: Run) -> (Roster, Ticket)
        requires { (ticket.key ≡ self.key) × (ticket.home ≡ false)
            × (run.ptr ≡ block_ptr self.key.object (self.key.start + ticket.number * self.key.size))
            × (length run.items ≡ self.key.size) }
        ensures { (result.0.key ≡ self.key) × (is_home self.home ticket.number ≡ false)
            × (result.0.home ≡ marked self.home ticket.number true) × (homes result.0.home ≡ homes self.home + 1)
            × (length result.0.home ≡ length self.home) × (ticket.number + 1 ≤ length self.home) × (result.1 ≡ record ticket { home = true }) }
    {
        let Roster {} = self;
        let Ticket {} = ticket;
        let Run {} = run;
        (Roster {}, Ticket {})
    }

    /// The room of all blocks, where each that ever was out is at home.
    pub(crate) fn whole(self) -> Room
        requires { homes self.home ≡ length self.home }
        ensures { (result.ptr ≡ block_ptr self.key.object self.key.start)
            × (result.len ≡ length self.key.names * self.key.size) }
    {
        let Roster {} = self;
        Room {}
    }
}
