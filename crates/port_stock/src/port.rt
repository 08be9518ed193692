//! One port: the numbers of the headers in its two lists, and how many headers there are.

ghost use Rattle.std.specs.Prelude.{◌≡◌, ◌&&◌, ◌<◌, true, not, length, Some, IfOk};
ghost use Rattle.il_machine.specs.Headers.{is_away, is_for, weight};
ghost use Rattle.il_machine.specs.Stock.{times_passed};
ghost use Rattle.port_stock.specs.Rings.{HasCounted, IsForWhere, is_away_from, is_guest, no_port, recounted, with_number, without_done, without_todo};

use crate::OutOfMemory;
use crate::entry::{is_away, is_foreign, is_guest_of};
use circular_buffer::HeapCircularBuffer;
use il_machine::{HeaderState, Owner, PortKey, Spot};
use std::alloc::Global;

/// So many headers are made for a port at most.
const MOST_HEADERS: usize = 32;

/// A port's lists are rings of the numbers of headers, with a place for each header that may be made for it. Beside them stands how
/// many headers are made for it, how many of those are away, and how many it has whose home it isn't.
#[derive(Drop)]
pub struct Port {
    pub key: PortKey,
    pub todo: HeapCircularBuffer<u64>,
    pub done: HeapCircularBuffer<u64>,
    pub made: u32,
    pub outstanding: u32,
    pub foreign: u32,
}

/// Whether a header is away before it goes to another owner, and after.
#[derive(Clone, Copy)]
pub struct Away {
    pub before: bool,
    pub after: bool,
}

/// What a header counts at a port that it was made for.
#[derive(Clone, Copy)]
struct Share {
    made: u32,
    outstanding: u32,
    foreign: u32,
}

fn once_where(test: bool) -> u32
    ensures { result ≡ weight test }
{
    if test { 1 } else { 0 }
}

/// What the header counts at the port, which it was made for, where there is one.
fn share_of(key: PortKey, state: &Option<HeaderState>) -> Share
    requires { IsForWhere key state.now }
    ensures made { result.made ≡ times_passed (is_for key) state.now }
    ensures outstanding { result.outstanding ≡ times_passed (is_away_from key) state.now }
    ensures foreign { result.foreign ≡ times_passed (is_guest key) state.now }
{
    match state {
        Some(state) => Share {
            made: 1,
            outstanding: once_where(is_away(state)),
            foreign: once_where(is_foreign(key, state)),
        },
        None => Share {
            made: 0,
            outstanding: 0,
            foreign: 0,
        },
    }
}

impl Port {
    /// A port without headers.
    pub fn new(alloc: Global, key: PortKey) -> Result<Port, OutOfMemory>
        ensures { IfOk result (λ p. p ≡ no_port key) }
    {
        let todo = HeapCircularBuffer::with_capacity(alloc, MOST_HEADERS)?;
        let done = HeapCircularBuffer::with_capacity(alloc, MOST_HEADERS)?;
        Ok(Port {
            key,
            todo,
            done,
            made: 0,
            outstanding: 0,
            foreign: 0,
        })
    }

    /// Puts a number at the spot, for which there is a place.
    pub fn put(&mut self, number: u64, spot: Spot)
        requires todo { length self.old.todo.items < self.old.todo.capacity }
        requires done { length self.old.done.items < self.old.done.capacity }
        ensures { self.new ≡ with_number spot number self.old }
    {
        let put = match spot {
            Spot::TodoBack => self.todo.try_push_back(number),
            Spot::TodoFront => self.todo.try_push_front(number),
            Spot::DoneBack => self.done.try_push_back(number),
        };
        match put {
            Ok(()) => {}
            Err(_) => unreachable!(),
        }
    }

    /// Counts a header anew that was so before, and is so after. It was made for the port, where there is one.
    pub fn recount(&mut self, before: &Option<HeaderState>, after: &Option<HeaderState>)
        requires counted { HasCounted before.now self.old }
        requires before { IsForWhere self.old.key before.now }
        requires after { IsForWhere self.old.key after.now }
        ensures { self.new ≡ recounted self.old.key before.now after.now self.old }
    {
        let was = share_of(self.key, before);
        let is = share_of(self.key, after);
        self.made = self.made - was.made + is.made;
        self.outstanding = self.outstanding - was.outstanding + is.outstanding;
        self.foreign = self.foreign - was.foreign + is.foreign;
    }

    /// Counts a header anew that was made for the port and goes to the owner.
    pub fn reown(&mut self, state: &HeaderState, owner: Owner, away: Away)
        requires counted { HasCounted (Some state.now) self.old }
        requires made_for { is_for self.old.key state.now ≡ true }
        requires before { away.before ≡ is_away state.now }
        requires after { away.after ≡ is_away (record state.now { owner = owner }) }
        ensures { self.new ≡ recounted self.old.key (Some state.now) (Some (record state.now { owner = owner })) self.old }
    {
        let was_guest = is_guest_of(self.key, state.home, state.owner);
        let is_guest = is_guest_of(self.key, state.home, owner);
        self.outstanding = self.outstanding - once_where(away.before) + once_where(away.after);
        self.foreign = self.foreign - once_where(was_guest) + once_where(is_guest);
    }
}
