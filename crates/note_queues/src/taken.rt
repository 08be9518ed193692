//! The items of a component's queues, and what queuing a command or taking a note answers.

use header_core::Header;
use omx_types::{Command, Event};

/// A command that waits to be run, and how many places it reserves for its events.
#[derive(Clone, Copy)]
pub struct QueuedCommand {
    pub command: Command,
    pub cost: u32,
}

/// Why a command isn't queued.
#[derive(Clone, Copy)]
pub struct Full {
    pub queued: u32,
    pub room: u32,
}

/// A note: an event, or a header that comes back emptied or filled.
pub enum Taken {
    Told(Event),
    EmptyDone(Header),
    FillDone(Header),
}

/// The oldest note, with the client object that is told it.
pub struct Call<C> {
    pub client: C,
    pub taken: Taken,
}

/// What taking a note answers.
pub enum Took<C> {
    Call(Call<C>),
    /// No note is queued.
    None,
    /// The client object is out.
    Busy,
}

impl Taken {
    ghost use Rattle.std.specs.Prelude.{◌≡◌};
    ghost use Rattle.il_machine.specs.Room.{is_event};
    ghost use Rattle.note_queues.specs.Queues.{note_of};

    pub(crate) fn is_event(&self) -> bool
        ensures { result ≡ is_event (note_of self.now) }
    {
        matches!(self, Taken::Told(_))
    }
}
