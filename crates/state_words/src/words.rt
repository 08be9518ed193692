//! The words.
ghost use Rattle.std.specs.Prelude.{◌≡◌, ◌+◌, ◌-◌, ◌<◌, ◌≤◌, ◌^◌, [], length, true, false, IfOk};
ghost use Rattle.state_words.specs.Shown.{Within, LastIs, states_of, version_of, after, word_of, firsts, Opening};
ghost use Rattle.state_words.specs.Tokens.{IsShowerOf, IsReaderOf, known, known_by, count};

use crate::code::state_of;
use crate::view::{Look, Share, Show, Showing, View};
use atomic_table::{Seat, Table};
use omx_types::State;
use std::alloc::{AllocError, Global};

/// There was no memory.
pub type OutOfMemory = AllocError;

/// What shows. There is one for the words.
#[derive(Drop)]
pub struct Shower {
    pub(crate) seat: Seat<(), View>,
}

/// What reads, and what it has seen.
#[derive(Drop)]
pub struct Reader {
    pub(crate) seat: Seat<(), View>,
}

/// A word for each component, which holds its version and its state.
#[derive(Drop)]
pub struct StateWords {
    pub(crate) table: Table<(), View, Vec<State>, Showing, Global>,
}

impl StateWords {
    /// A word for each state, at version 0, what shows and a reader.
    pub fn new(alloc: Global, states: &[State]) -> Result<(StateWords, Shower, Reader), OutOfMemory>
        requires { length states.now ≤ 32 }
        ensures tokens { IfOk result (λ t. IsShowerOf t.0 t.1 × IsReaderOf t.0 t.2 × (count t.0 ≡ length states.now)) }
        ensures known { IfOk result (λ t. (known_by t.1 ≡ firsts states.now) × (known t.2 ≡ firsts states.now)) }
    {
        let opening = Vec::from_slice(alloc, states)?;
        let words = opening_words(alloc, states)?;
        let (table, mut seat) = Table::of_words(alloc, words.as_slice(), &opening)?;
        let reader = table.shared.split_seat::<Share>(&mut seat);
        Ok((
            StateWords { table },
            Shower { seat },
            Reader { seat: reader },
        ))
    }

    // A load, after which the seat knows all that was shown so far.
    fn look(&self, seat: &mut Seat<(), View>, word: usize) -> u64
        requires { (seat.old.table_id ≡ self.now.table.shared.table_id) × (word < self.now.table.shared.table_id.words) × (seat.old.me.0.spent ≡ false) }
        ensures same { (seat.new.table_id ≡ seat.old.table_id) × (seat.new.me.0.shows ≡ seat.old.me.0.shows) × (seat.new.me.0.spent ≡ false) × (seat.new.me.1 ≡ seat.old.me.1) × (seat.new.me.0.also ≡ []) × (length seat.new.me.0.seen ≡ length seat.old.me.0.seen) }
        ensures known { Within seat.old.me.0.seen seat.new.me.0.seen × Within seat.old.me.0.also seat.new.me.0.seen }
        ensures found { 0 < word → word - 1 < length seat.new.me.0.seen → (result ≡ word_of (states_of seat.new.me.0.seen (word - 1))) × (0 < length (states_of seat.new.me.0.seen (word - 1))) }
        ensures shower { seat.old.me.0.shows ≡ true → seat.new.me.0.seen ≡ seat.old.me.0.seen }
    {
        self.table.shared.load::<Look>(seat, word)
    }

    /// The version and the state of a component: the last that the reader has then seen.
    pub fn peek(&self, by: &mut Reader, index: u32) -> (u64, State)
        requires { IsReaderOf self.now by.old × (index < count self.now) }
        ensures reader { IsReaderOf self.now by.new }
        ensures known { Within (known by.old) (known by.new) }
        ensures last { LastIs (known by.new) index result.0 result.1 }
    {
        let word = self.look(&mut by.seat, index as usize + 1);
        (word / 8, state_of(word % 8))
    }

    /// Shows one more state of a component, under the next version.
    pub fn show(&self, by: &mut Shower, index: u32, state: State)
        requires shower { IsShowerOf self.now by.old × (index < count self.now) }
        requires room { version_of (known_by by.old) index < 2 ^ 60 }
        ensures shower { IsShowerOf self.now by.new }
        ensures shown { known_by by.new ≡ after (known_by by.old) index state }
        ensures version { version_of (known_by by.new) index ≡ version_of (known_by by.old) index + 1 }
    {
        let word = self.look(&mut by.seat, index as usize + 1);
        let next = word - word % 8 + 8 + u64::from(state.number());
        self.table
            .shared
            .store::<Show>(&mut by.seat, index as usize + 1, next);
    }

    /// The reader then knows what the shower does.
    pub fn share(&self, from: &mut Shower, to: &mut Reader)
        requires { IsShowerOf self.now from.old × IsReaderOf self.now to.old }
        ensures tokens { IsShowerOf self.now from.new × IsReaderOf self.now to.new × (known_by from.new ≡ known_by from.old) }
        ensures known { Within (known_by from.old) (known to.new) × Within (known to.old) (known to.new) }
    {
        let seat = self.table.shared.split_seat::<Share>(&mut from.seat);
        self.learn(to, Reader { seat });
    }

    /// A reader that has seen as much.
    pub fn split(&self, reader: &mut Reader) -> Reader
        requires { IsReaderOf self.now reader.old }
        ensures { IsReaderOf self.now reader.new × IsReaderOf self.now result × (known reader.new ≡ known reader.old) × (known result ≡ known reader.old) }
    {
        Reader {
            seat: self.table.shared.split_seat::<Share>(&mut reader.seat),
        }
    }

    /// The first reader has then seen what either had.
    pub fn learn(&self, to: &mut Reader, from: Reader)
        requires { IsReaderOf self.now to.old × IsReaderOf self.now from }
        ensures reader { IsReaderOf self.now to.new }
        ensures known { Within (known to.old) (known to.new) × Within (known from) (known to.new) }
    {
        let seat = from.into_seat();
        self.table.shared.join_seat::<Share>(&mut to.seat, seat);
        self.look(&mut to.seat, 0);
    }
}

impl Reader {
    fn into_seat(self) -> Seat<(), View>
        ensures { result ≡ self.seat }
    {
        let Reader { seat } = self;
        seat
    }
}

// The words of the table, of which the first is never shown.
fn opening_words(alloc: Global, states: &[State]) -> Result<Vec<u64>, AllocError>
    ensures { IfOk result (λ words. Opening states.now words.items) }
{
    let mut words = Vec::from_slice(alloc, &[0])?;
    for state in states {
        words.push(u64::from(state.number()))?;
    }
    Ok(words)
}
