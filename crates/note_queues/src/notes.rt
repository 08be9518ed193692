//! A component's bounded queues of commands and notes, the places for its events, and its client object.

ghost use Rattle.std.specs.Prelude.{◌≡◌, ◌+◌, ◌*◌, ◌<◌, ◌≤◌, ◌∷◌, ◌++◌, [], true, false, length, map, is_none, OnOk, OnErr, IsSome, IfOk, IfErr, option_map, option_copied};
ghost use Rattle.circular_buffer.specs.Buffer.{buffer};
ghost use Rattle.il_machine.specs.Room.{events_in};
ghost use Rattle.il_machine.specs.Census.{note_numbers};
ghost use Rattle.note_queues.specs.Queues.{note_of, no_notes, notes_of, header_notes, header_note, costs, room, is_full, fullness, IsWithin, commanded, front_command, without_front, without_commands, holding, noted, with_client, took, after_taking};

use crate::OutOfMemory;
use crate::client::Client;
use crate::taken::{Call, Full, QueuedCommand, Taken, Took};
use circular_buffer::HeapCircularBuffer;
use header_core::Header;
use il_machine::Progress;
use omx_types::{Command, Event};
use std::alloc::Global;
use std::marker::Model;
use std::mem::replace;

/// The greatest number of queued commands.
const COMMANDS: usize = 32;

/// The places for events.
const PLACES: u32 = 256;

/// The greatest number of headers that are made for a port.
const PORT_HEADERS: usize = 32;

/// The commands and notes of one component, and its client object where that is in. It may hold headers, so it
/// is ended by `close`.
pub struct Notes<C> {
    commands: HeapCircularBuffer<QueuedCommand>,
    notes: HeapCircularBuffer<Taken>,
    client: Option<C>,
    reserve: u32,
    ports: u32,
    /// The costs of the commands together.
    cost_sum: u32,
    /// How many of the notes are events.
    event_count: u32,
}

impl<C> Model for Notes<C> {
    ghost use Rattle.note_queues.specs.Queues.{Queues, IsCounted, HasPlaces};

    ghost Value = { Queues C };

    ghost view = { λ n. record { commands = n.commands.items; notes = n.notes.items; client = n.client; reserve = n.reserve; ports = n.ports } };

    ghost invariant = { λ n.
        IsCounted (record { commands = n.commands.items; notes = n.notes.items; client = n.client; reserve = n.reserve; ports = n.ports }) n.cost_sum n.event_count
        × HasPlaces n.commands.capacity n.notes.capacity n.ports };
}

/// Takes the oldest item out. There is one.
fn take_oldest_of<T>(ring: &mut HeapCircularBuffer<T>) -> T
    requires { 0 < length ring.old.items }
    ensures { ring.old ≡ buffer (result ∷ ring.new.items) ring.new.capacity }
{
    match ring.pop_front() {
        Some(item) => item,
        None => unreachable!(),
    }
}

/// Puts an item behind all others. There is a place for it.
fn put_newest_to<T>(ring: &mut HeapCircularBuffer<T>, item: T)
    requires { length ring.old.items < ring.old.capacity }
    ensures { ring.new ≡ buffer (ring.old.items ++ item ∷ []) ring.old.capacity }
{
    match ring.try_push_back(item) {
        Ok(()) => {}
        Err(_item) => unreachable!(),
    }
}

fn note_of_header(input: bool, header: Header) -> Taken
    ensures { result ≡ header_note input header }
{
    if input {
        Taken::EmptyDone(header)
    } else {
        Taken::FillDone(header)
    }
}

/// Ends a list of notes in which there is no header.
fn drop_events(mut notes: HeapCircularBuffer<Taken>)
    requires { length (note_numbers (map note_of notes.items)) ≡ 0 }
{
    while let Some(taken) = notes.pop_front() {
        match taken {
            Taken::Told(_) => {}
            Taken::EmptyDone(_header) | Taken::FillDone(_header) => unreachable!(),
        }
    }
    notes.destroy_empty();
}

impl<C> Notes<C> {
    /// No commands and notes, and the client object in. Each queue is a ring of its greatest length.
    pub fn new(alloc: Global, ports: u32, client: C) -> Result<Notes<C>, (OutOfMemory, C)>
        requires { ports ≤ 16 }
        ensures made { IfOk result (λ n. n ≡ no_notes ports client) }
        ensures handed_back { IfErr result (λ refused. refused.1 ≡ client) }
    {
        let commands = match HeapCircularBuffer::with_capacity(alloc, COMMANDS) {
            Ok(commands) => commands,
            Err(error) => return Err((error, client)),
        };
        let places = PLACES as usize + PORT_HEADERS * ports as usize;
        let notes = match HeapCircularBuffer::with_capacity(alloc, places) {
            Ok(notes) => notes,
            Err(error) => return Err((error, client)),
        };
        Ok(Notes {
            commands,
            notes,
            client: Some(client),
            reserve: 0,
            ports,
            cost_sum: 0,
            event_count: 0,
        })
    }

    /// How many commands are queued.
    pub fn queued(&self) -> u32
        ensures { result ≡ length self.now.commands }
    {
        self.commands.len() as u32
    }

    /// How many events are queued.
    pub fn events(&self) -> u32
        ensures { result ≡ events_in (notes_of self.now) }
    {
        self.event_count
    }

    /// The places that are neither taken by an event nor reserved.
    pub fn room(&self) -> u32
        ensures room { result ≡ room self.now }
        ensures within { IsWithin self.now }
    {
        PLACES - self.event_count - self.cost_sum - self.reserve
    }

    /// Queues a command that reserves so many places.
    pub fn push_command(&mut self, command: Command, cost: u32) -> Result<(), Full>
        ensures full { is_full cost self.old ≡ true → result ≡ Err (fullness self.old) }
        ensures fits { is_full cost self.old ≡ false → result ≡ Ok tt }
        ensures queued { OnOk result (self.new ≡ commanded command cost self.old) }
        ensures unchanged { OnErr result (self.new ≡ self.old) }
    {
        let queued = self.queued();
        let room = self.room();
        if queued >= COMMANDS as u32 || room < cost {
            return Err(Full { queued, room });
        }
        put_newest_to(&mut self.commands, QueuedCommand { command, cost });
        self.cost_sum += cost;
        Ok(())
    }

    /// The oldest command.
    pub fn front_command(&self) -> Option<&Command>
        ensures { option_copied result ≡ front_command self.now }
    {
        match self.commands.front() {
            Some(queued) => Some(&queued.command),
            None => None,
        }
    }

    /// Takes the oldest command out. What it reserved is let go.
    pub fn pop_command(&mut self) -> Option<Command>
        ensures command { result ≡ front_command self.old }
        ensures popped { self.new ≡ without_front self.old }
    {
        if self.commands.is_empty() {
            return None;
        }
        let queued = take_oldest_of(&mut self.commands);
        self.cost_sum -= queued.cost;
        Some(queued.command)
    }

    /// Lets all queued commands go, with what they reserved.
    pub fn drop_commands(&mut self)
        ensures { self.new ≡ without_commands self.old }
    {
        self.commands.clear();
        self.cost_sum = 0;
    }

    /// Reserves so many places beside those of the queued commands, in place of what was held before.
    pub fn hold_reserve(&mut self, places: u32)
        requires { events_in (notes_of self.old) + costs self.old + places ≤ 256 }
        ensures { self.new ≡ holding places self.old }
    {
        self.reserve = places;
    }

    /// Queues an event. The place that was reserved for it is let go before.
    pub fn push_event(&mut self, event: Event)
        requires { 0 < room self.old }
        ensures { self.new ≡ noted (Taken.Told event) self.old }
    {
        put_newest_to(&mut self.notes, Taken::Told(event));
        self.event_count += 1;
    }

    /// Queues a header that comes back: of an input emptied, of an output filled.
    pub fn push_header(&mut self, input: bool, header: Header)
        requires { header_notes self.old < 32 * self.old.ports }
        ensures { self.new ≡ noted (header_note input header) self.old }
    {
        let taken = note_of_header(input, header);
        put_newest_to(&mut self.notes, taken);
    }

    /// Takes the oldest note out.
    fn take_oldest(&mut self) -> Taken
        requires { 0 < length self.old.notes }
        ensures { self.old ≡ record self.new { notes = result ∷ self.new.notes } }
    {
        let taken = take_oldest_of(&mut self.notes);
        if taken.is_event() {
            self.event_count -= 1;
        }
        taken
    }

    /// Moves the oldest note out, with the client object that is to be told it.
    pub fn take_call(&mut self) -> Took<C>
        ensures took { result ≡ took self.old }
        ensures left { self.new ≡ after_taking self.old }
    {
        if self.client.is_none() {
            return Took::Busy;
        }
        if self.notes.is_empty() {
            return Took::None;
        }
        let taken = self.take_oldest();
        match replace(&mut self.client, None) {
            Some(client) => Took::Call(Call { client, taken }),
            None => unreachable!(),
        }
    }

    /// Puts the client object back.
    pub fn put_client(&mut self, client: C)
        requires { is_none self.old.client ≡ true }
        ensures { self.new ≡ with_client client self.old }
    {
        match replace(&mut self.client, Some(client)) {
            None => {}
            Some(_) => unreachable!(),
        }
    }

    /// Whether the client object is out with a note.
    pub fn is_client_out(&self) -> bool
        ensures { result ≡ is_none self.now.client }
    {
        self.client.is_none()
    }

    /// Ends the queues. The queued commands and events are dropped.
    pub fn close(self) -> C
        requires client { IsSome self.client }
        requires headers { header_notes self ≡ 0 }
        ensures { Some result ≡ self.client }
    {
        let Notes {
            commands: _,
            notes,
            client,
            reserve: _,
            ports: _,
            cost_sum: _,
            event_count: _,
        } = self;
        drop_events(notes);
        match client {
            Some(client) => client,
            None => unreachable!(),
        }
    }
}

impl<C: Client> Notes<C> {
    /// What the client object was told so far, or None where it is out.
    pub fn progress(&self) -> Option<Progress>
        ensures { result ≡ option_map C.progress self.now.client }
    {
        match &self.client {
            Some(client) => Some(client.progress()),
            None => None,
        }
    }
}
