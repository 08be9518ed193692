//! The book of a resource: units are asked for and given back, who waits, and who gives its own up.

ghost use Rattle.std.specs.Prelude.{◌≡◌, ◌≢◌, ◌<◌, ◌≤◌, ◌^◌, true, false, not, length, filter, set, slice_get, Some, MatchBool, option_map, if◌then◌else◌};
ghost use Rattle.resource_book.specs.Rows.{units_held, is_returning, is_kept, is_waiter, is_of, is_below, is_before, is_weaker, gives_first, better, first_waiter, weakest, victim, IsFirstToGet, IsFirstToGive, row_at, has_place, with_row, AreRising, component_of, given_back, marked_back, left};
ghost use Rattle.resource_book.specs.declared.row.Row.{Row as RowOf};
ghost use Rattle.resource_book.specs.Account.{IsSound};
ghost use Rattle.resource_book.specs.Book.{empty_book, free_units, coming_units, has_room, holds_units, waits, with_changed, answer_to, asked, is_out_of_numbers, waited};

use crate::row::Row;
use arrayvec::ArrayVec;
use std::marker::Model;

/// In the order of the components' numbers, one a component.
type Rows = ArrayVec<Row, 32>;

/// Whether units were granted.
#[derive(Clone, Copy)]
pub enum Ask {
    Granted,
    Short { have: u32, need: u32 },
}

/// Units, the components that hold some, and those that wait: at most 32 components.
#[derive(Drop)]
pub struct Book {
    units: u32,
    /// How many of the units are held.
    held: u32,
    numbered: u64,
    rows: Rows,
}

impl Model for Book {
    ghost use Rattle.std.specs.Prelude.{◌≡◌};
    ghost use Rattle.resource_book.specs.Account.{Account, IsSound};
    ghost use Rattle.resource_book.specs.Rows.{units_held};

    ghost Value = { Account };

    ghost view = { λ b. record { units = b.units; rows = b.rows.items; numbered = b.numbered } };

    ghost invariant = { λ b. IsSound (record { units = b.units; rows = b.rows.items; numbered = b.numbered }) × (b.held ≡ units_held b.rows.items) };
}

fn units_returning(rows: &[Row]) -> u32
    requires { units_held rows.now < 2 ^ 32 }
    ensures { result ≡ units_held (filter is_returning rows.now) }
{
    let mut units = 0;
    for row in rows {
        if row.is_returning() {
            units += row.units();
        }
    }
    units
}

/// How many rows are of lesser components: the place of the component's own.
fn place_of(rows: &[Row], component: u64) -> usize
    requires { AreRising rows.now }
    ensures { result ≡ length (filter (is_below component) rows.now) }
{
    rows.partition_point(|row| row.component < component)
}

/// The component's row, which stands at the place that would be its own, or nowhere.
fn row_at(rows: &[Row], place: usize, component: u64) -> Row
    requires rising { AreRising rows.now }
    requires place { place ≡ length (filter (is_below component) rows.now) }
    ensures { result ≡ row_at component rows.now }
{
    match rows.get(place) {
        Some(row) if row.component == component => *row,
        _ => Row::blank(component),
    }
}

/// Takes the component's row out, if it stands at the place that would be its own.
fn remove(rows: &mut Rows, place: usize, component: u64)
    requires rising { AreRising rows.old.items }
    requires place { place ≡ length (filter (is_below component) rows.old.items) }
    ensures { rows.new.items ≡ filter (λ (row : RowOf). not (is_of component row)) rows.old.items }
{
    if place < rows.len() && rows[place].component == component {
        rows.remove(place);
    }
}

/// Puts the row in place of its component's, where that stands at the place, and answers whether it did.
fn replace_row(rows: &mut [Row], place: usize, row: Row) -> bool
    ensures { MatchBool result ((old : RowOf) × (slice_get rows.old place ≡ Some old) × (old.component ≡ row.component) × (rows.new ≡ set rows.old place row)) ((rows.new ≡ rows.old) × ((old : RowOf) → slice_get rows.old place ≡ Some old → old.component ≢ row.component)) }
{
    if place >= rows.len() || rows[place].component != row.component {
        return false;
    }
    rows[place] = row;
    true
}

/// Puts the row in place of its component's, whose own place that is.
fn place_row(rows: &mut Rows, place: usize, row: Row)
    requires rising { AreRising rows.old.items }
    requires place { place ≡ length (filter (is_below row.component) rows.old.items) }
    requires room { is_kept row ≡ true → has_place row.component rows.old.items ≡ true }
    ensures { rows.new.items ≡ with_row row rows.old.items }
{
    if !row.is_kept() {
        remove(rows, place, row.component);
        return;
    }
    // Most rows change where they stand.
    if replace_row(rows.as_mut_slice(), place, row) {
        return;
    }
    rows.insert(place, row);
}

/// The row if it waits and no later row goes before it, else the best of the later ones.
fn earlier(row: Row, best: Option<Row>) -> Option<Row>
    ensures { result ≡ (if is_waiter row then Some (better is_before row best) else best) }
{
    if !row.is_waiter() {
        return best;
    }
    match best {
        Some(other) if other.is_before(row) => best,
        _ => Some(row),
    }
}

/// The row if the waiter can have its units and no later row gives first, else the best of the later ones.
fn weaker(waiter: Row, row: Row, best: Option<Row>) -> Option<Row>
    ensures { result ≡ (if is_weaker waiter row then Some (better gives_first row best) else best) }
{
    if !row.is_weaker(waiter) {
        return best;
    }
    match best {
        Some(other) if other.gives_first(row) => best,
        _ => Some(row),
    }
}

/// The row of the first that waits.
fn first_waiter(rows: &[Row]) -> Option<Row>
    ensures { result ≡ first_waiter rows.now }
{
    let mut first = None;
    for place in (0..rows.len()).rev() {
        first = earlier(rows[place], first);
    }
    first
}

/// The row of the one that gives its units up for the waiter.
fn weakest(rows: &[Row], waiter: Row) -> Option<Row>
    ensures { result ≡ weakest waiter rows.now }
{
    let mut weak = None;
    for place in (0..rows.len()).rev() {
        weak = weaker(waiter, rows[place], weak);
    }
    weak
}

impl Book {
    /// A book in which nobody holds any of the units and nobody waits.
    pub fn new(units: u32) -> Book
        ensures { result ≡ empty_book units }
    {
        Book {
            units,
            held: 0,
            numbered: 0,
            rows: Rows::new(),
        }
    }

    /// How many units nobody holds.
    pub fn free(&self) -> u32
        ensures count { result ≡ free_units self.now }
        ensures covered { units_held self.now.rows ≤ self.now.units }
        ensures small { self.now.units < 2 ^ 32 }
    {
        self.units - self.held
    }

    fn row(&self, component: u64) -> Row
        ensures value { result ≡ row_at component self.now.rows }
        ensures sound { IsSound self.now }
    {
        let rows = self.rows.as_slice();
        row_at(rows, place_of(rows, component), component)
    }

    /// How many waits were numbered.
    pub fn numbered(&self) -> u64
        ensures { result ≡ self.now.numbered }
    {
        self.numbered
    }

    /// So many waits were numbered by now: an owner that numbers waits itself tells it.
    pub fn count_waits(&mut self, numbered: u64)
        ensures { self.new ≡ record self.old { numbered = numbered } }
    {
        self.numbered = numbered;
    }

    /// Puts the row in place of its component's. One of a component that holds no units and doesn't wait is taken out.
    pub fn put(&mut self, row: Row)
        requires room { is_kept row ≡ true → has_room row.component self.old ≡ true }
        requires covered { units_held (with_row row self.old.rows) ≤ self.old.units }
        ensures { self.new ≡ record self.old { rows = with_row row self.old.rows } }
    {
        let rows = self.rows.as_slice();
        let place = place_of(rows, row.component);
        let before = row_at(rows, place, row.component);
        self.held -= before.units();
        self.held += row.units();
        place_row(&mut self.rows, place, row);
    }

    /// Grants the component its units if so many are free.
    pub fn ask_units(&mut self, component: u64, need: u32, priority: u32) -> Ask
        requires holds_none { holds_units component self.old ≡ false }
        requires room { has_room component self.old ≡ true }
        ensures answer { result ≡ answer_to need self.old }
        ensures after { self.new ≡ asked component need priority self.old }
    {
        let have = self.free();
        if have < need {
            return Ask::Short { have, need };
        }
        let row = self.row(component).holding(need, priority);
        self.put(row);
        Ask::Granted
    }

    /// Frees the units that the component holds, if it holds any.
    pub fn give_back(&mut self, component: u64)
        ensures { self.new ≡ with_changed given_back component self.old }
    {
        let row = self.row(component).given_back();
        self.put(row);
    }

    /// Lets the component wait behind those of its priority number, if a number is left for its wait.
    pub fn wait(&mut self, component: u64, need: u32, priority: u32) -> bool
        requires waits_not { waits component self.old ≡ false }
        requires room { has_room component self.old ≡ true }
        ensures answer { result ≡ not (is_out_of_numbers self.old) }
        ensures after { self.new ≡ waited component need priority self.old }
    {
        if self.numbered == u64::MAX {
            return false;
        }
        let row = self.row(component).waiting(need, priority, self.numbered);
        self.put(row);
        self.numbered += 1;
        true
    }

    /// Lets the component wait no more, if it does.
    pub fn leave(&mut self, component: u64)
        ensures { self.new ≡ with_changed left component self.old }
    {
        let row = self.row(component).left();
        self.put(row);
    }

    /// The component's units are on their way back from now on, until they are given back.
    pub fn mark_back(&mut self, component: u64)
        requires { holds_units component self.old ≡ true }
        ensures { self.new ≡ with_changed marked_back component self.old }
    {
        let row = self.row(component).marked_back();
        self.put(row);
    }

    /// How many units are free or on their way back.
    pub fn coming(&self) -> u32
        ensures { result ≡ coming_units self.now }
    {
        self.free() + units_returning(self.rows.as_slice())
    }

    /// The component that gets units before all others that wait.
    pub fn first_waiter(&self) -> Option<u64>
        ensures answer { result ≡ option_map component_of (first_waiter self.now.rows) }
        ensures least { IsFirstToGet self.now.rows }
    {
        Some(first_waiter(self.rows.as_slice())?.component)
    }

    /// The component that gives its units up for the first waiter.
    pub fn victim(&self) -> Option<u64>
        ensures answer { result ≡ option_map component_of (victim self.now.rows) }
        ensures greatest { IsFirstToGive self.now.rows }
    {
        let rows = self.rows.as_slice();
        let waiter = first_waiter(rows)?;
        Some(weakest(rows, waiter)?.component)
    }
}
