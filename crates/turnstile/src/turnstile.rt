//! The turnstile and its passes.
ghost use Rattle.std.specs.Prelude.{◌≡◌, [], ◌∷◌};

use crate::entry::Entry;
use crate::serve::Serve;
use crate::view::{Turns, View};
use atomic_table::{Seat, Table};
use std::alloc::Global;

/// The table of a turnstile.
pub(crate) type Stand<V> = Table<
    Option<V>,
    View<V, <V as Serve>::Act, <V as Serve>::Reply>,
    V,
    Turns,
    Global,
>;

/// A seat at the table of a turnstile.
pub(crate) type Place<V> = Seat<Option<V>, View<V, <V as Serve>::Act, <V as Serve>::Reply>>;

/// What a thread takes its turns with.
pub struct Pass<V: Serve> {
    pub(crate) seat: Seat<Option<V>, View<V, V::Act, V::Reply>>,
    pub(crate) refused: bool,
}

/// A value that is served in turns.
pub struct Turnstile<V: Serve> {
    pub(crate) table: Table<Option<V>, View<V, V::Act, V::Reply>, V, Turns, Global>,
    ghost sized: { (table.shared.table_id.words ≡ 2) × (table.shared.table_id.slots ≡ 1) },
}

/// A pass that is dropped is never joined, so its turnstile is not closed.
impl<V: Serve> Drop for Pass<V> {
    fn drop(self) {
        let Self {
            seat: _,
            refused: _,
        } = self;
    }
}

impl<V: Serve> Pass<V> {
    pub(crate) fn into_seat(self) -> Place<V>
        ensures { result ≡ self.seat }
    {
        let Self { seat, refused: _ } = self;
        seat
    }
}

/// Where the value may be let go, so may its turnstile.
impl<V: Serve + Drop> Drop for Turnstile<V> {
    fn drop(self) {
        let Self { table } = self;
        drop(table);
    }
}

impl<V: Serve> Turnstile<V> {
    pub(crate) fn into_table(self) -> Stand<V>
        ensures { result ≡ self.table }
    {
        let Self { table } = self;
        table
    }
}
