//! The table of entries, one for each header that is made, by rising number.

ghost use Rattle.std.specs.Prelude.{◌≡◌, ℕ, ◌<◌, ◌+◌, ◌∷◌, ◌++◌, [], length, map, option_map, nat_eq, position, slice_get, slice_set, remove, Some, None, true, IfSome, IsSome, MatchOption, is_none, vec_len, vec_capacity};
ghost use Rattle.std.specs.List.{list_all};
ghost use Rattle.il_machine.specs.declared.header.Queue.TheVariants.{Out};
ghost use Rattle.il_machine.specs.Headers.{Once, changed, find_header, given_to, in_todo, in_done, put_at, state_at, state_of, empty_load, without};
ghost use Rattle.il_machine.specs.Buffers.{load_in};
ghost use Rattle.il_machine.specs.Due.{marked as marked_record};
ghost use Rattle.header_core.specs.BufferHeader.{cleared as emptied_header, marked as marked_header};
ghost use Rattle.stock_laws.specs.Changes.{cleared_where};
ghost use Rattle.port_stock.specs.Kept.{has_no_mark, is_waiting, unmarked_of};
ghost use Rattle.port_stock.specs.Conditions.{IsHeaderOf, is_inside};
ghost use Rattle.port_stock.specs.Entries.{AreOf, Each, IsKept, IsTakenAt, KeepsKeys, entry_cleared, entry_out, headers_of, load_of_kept, put_record, record_of};

use crate::entry::{Entry, is_in_list, is_kept_by, put_state, waits_in_done, waits_in_todo};
use circular_buffer::HeapCircularBuffer;
use header_core::Header;
use il_machine::{HeaderState, Mark, Owner, PortKey, Queue, Spot};
use std::mem::replace;

/// The place that the number has where none below it is missing, or that is found by halves. Numbers rise along the table, but this
/// isn't relied on.
fn likely_place(entries: &[Entry], number: u64) -> Option<usize>
    ensures { IfSome result (λ place. MatchOption (slice_get entries.now place) ⊥ (λ e. e.state.number ≡ number)) }
{
    let first = entries.first()?.state.number;
    let steps = number.checked_sub(first)? as usize;
    if let Some(entry) = entries.get(steps)
        && entry.state.number == number
    {
        return Some(steps);
    }
    let place = entries
        .binary_search_by_key(&number, |e| e.state.number)
        .ok()?;
    if entries[place].state.number == number {
        Some(place)
    } else {
        None
    }
}

/// Whether each header waits in a list.
pub fn all_wait(entries: &[Entry]) -> bool
    ensures { result ≡ list_all (λ e. is_waiting e.state.queue) entries.now }
{
    entries.iter().all(|e| is_in_list(e.state.queue))
}

/// Whether each header is with a port or in a note.
pub fn all_inside(entries: &[Entry]) -> bool
    ensures { result ≡ list_all (λ e. is_inside e.state.owner) entries.now }
{
    entries.iter().all(|e| is_kept_by(e.state.owner))
}

fn number_place(entries: &[Entry], number: u64) -> Option<usize>
    requires { Once (headers_of entries.now) }
    ensures place { result ≡ position (λ e. nat_eq e.state.number number) entries.now }
    ensures within { IfSome result (λ k. k < length entries.now) }
{
    if let Some(place) = likely_place(entries, number) {
        return Some(place);
    }
    entries.iter().position(|e| e.state.number == number)
}

/// Takes the entry of a header that is in no list.
fn take_entry(entries: &mut Vec<Entry>, place: usize) -> HeaderState
    requires within { place < vec_len entries.old }
    requires unkept { IfSome (slice_get entries.old.items place) (λ e. e.kept ≡ None) }
    ensures state { IfSome (slice_get entries.old.items place) (λ e. result ≡ e.state) }
    ensures items { entries.new.items ≡ remove entries.old.items place }
    ensures len { vec_len entries.new + 1 ≡ vec_len entries.old }
    ensures capacity { vec_capacity entries.new ≡ vec_capacity entries.old }
{
    let Entry { state, kept } = entries.remove(place);
    let None = kept else { unreachable!() };
    state
}

/// Takes the header of an entry, which then is in no list.
fn take_header(entries: &mut Vec<Entry>, place: usize) -> Header
    requires within { place < vec_len entries.old }
    requires there { IfSome (slice_get entries.old.items place) (λ e. IsSome e.kept) }
    ensures header { IfSome (slice_get entries.old.items place) (λ e. e.kept ≡ Some result) }
    ensures items { IfSome (slice_get entries.old.items place)
        (λ e. entries.new.items ≡ slice_set entries.old.items place (entry_out e)) }
    ensures capacity { vec_capacity entries.new ≡ vec_capacity entries.old }
{
    let entry = &mut entries[place];
    entry.state.queue = Queue::Out;
    let Some(header) = entry.kept.take() else {
        unreachable!()
    };
    header
}

/// Puts the header into an entry that has none, at the spot of the port, and answers how the entry was.
fn put_in(entry: &mut Entry, key: PortKey, header: Header, spot: Spot) -> HeaderState
    requires { entry.old.kept ≡ None }
    ensures before { result ≡ entry.old.state }
    ensures entry { entry.new ≡ record { state = state_at key spot entry.old.state; kept = Some header } }
{
    let before = entry.state;
    entry.state = put_state(key, spot, before);
    match replace(&mut entry.kept, Some(header)) {
        None => before,
        Some(_) => unreachable!(),
    }
}

/// Puts a header that is in no list at the spot of the port, and answers how it was.
pub fn put(entries: &mut Vec<Entry>, key: PortKey, header: Header, spot: Spot) -> HeaderState
    requires outside { MatchOption (find_header header.held.number (headers_of entries.old.items))
        ⊥ (λ r. (r.state.queue ≡ Out) × IsHeaderOf r.state header) }
    requires once { Once (headers_of entries.old.items) }
    requires kept { Each IsKept entries.old.items }
    ensures before { option_map state_of (find_header header.held.number (headers_of entries.old.items)) ≡ Some result }
    ensures headers { headers_of entries.new.items
        ≡ changed header.held.number (put_record key spot (load_in header.held)) (headers_of entries.old.items) }
    ensures kept { Each IsKept entries.new.items }
    ensures keys { AreOf header.key entries.old.items → AreOf header.key entries.new.items }
    ensures capacity { vec_capacity entries.new ≡ vec_capacity entries.old }
{
    let Some(place) = number_place(entries, header.id()) else {
        unreachable!()
    };
    let entry = &mut entries[place];
    put_in(entry, key, header, spot)
}

/// Takes the header of the number, which waits in a list, out of it.
pub fn take(entries: &mut Vec<Entry>, number: u64) -> Header
    requires waits { MatchOption (find_header number (headers_of entries.old.items)) ⊥ (λ r. is_waiting r.state.queue ≡ true) }
    requires once { Once (headers_of entries.old.items) }
    requires kept { Each IsKept entries.old.items }
    ensures taken { IsTakenAt number result (headers_of entries.old.items) (headers_of entries.new.items) }
    ensures kept { Each IsKept entries.new.items }
    ensures keys { KeepsKeys entries.old.items entries.new.items }
    ensures own { (key : ℕ) → AreOf key entries.old.items → result.key ≡ key }
    ensures capacity { vec_capacity entries.new ≡ vec_capacity entries.old }
{
    let Some(place) = number_place(entries, number) else {
        unreachable!()
    };
    take_header(entries, place)
}

/// Puts the header of the number, which waits in a list, at the spot of the port with all that it carries, and answers how it was.
pub fn pass(entries: &mut Vec<Entry>, number: u64, key: PortKey, spot: Spot) -> HeaderState
    requires waits { MatchOption (find_header number (headers_of entries.old.items)) ⊥ (λ r. is_waiting r.state.queue ≡ true) }
    requires once { Once (headers_of entries.old.items) }
    requires kept { Each IsKept entries.old.items }
    ensures before { option_map state_of (find_header number (headers_of entries.old.items)) ≡ Some result }
    ensures headers { headers_of entries.new.items ≡ changed number (put_at key spot) (headers_of entries.old.items) }
    ensures kept { Each IsKept entries.new.items }
    ensures keys { KeepsKeys entries.old.items entries.new.items }
    ensures capacity { vec_capacity entries.new ≡ vec_capacity entries.old }
{
    let Some(place) = number_place(entries, number) else {
        unreachable!()
    };
    let entry = &mut entries[place];
    let before = entry.state;
    entry.state = put_state(key, spot, before);
    before
}

/// Adds a header that is in no list, where there is room.
pub fn add(entries: &mut Vec<Entry>, state: HeaderState)
    requires room { vec_len entries.old < vec_capacity entries.old }
    requires kept { Each IsKept entries.old.items }
    requires out { state.queue ≡ Out }
    ensures headers { headers_of entries.new.items
        ≡ headers_of entries.old.items ++ record { state = state; load = empty_load None } ∷ [] }
    ensures kept { Each IsKept entries.new.items }
    ensures keys { KeepsKeys entries.old.items entries.new.items }
    ensures capacity { vec_capacity entries.new ≡ vec_capacity entries.old }
{
    entries.push_reserved(Entry { state, kept: None });
}

/// Takes the header of the number, which is in no list, away, and answers how it was.
pub fn remove(entries: &mut Vec<Entry>, number: u64) -> HeaderState
    requires outside { MatchOption (find_header number (headers_of entries.old.items)) ⊥ (λ r. r.state.queue ≡ Out) }
    requires once { Once (headers_of entries.old.items) }
    requires kept { Each IsKept entries.old.items }
    ensures before { option_map state_of (find_header number (headers_of entries.old.items)) ≡ Some result }
    ensures headers { headers_of entries.new.items ≡ without number (headers_of entries.old.items) }
    ensures kept { Each IsKept entries.new.items }
    ensures keys { KeepsKeys entries.old.items entries.new.items }
    ensures capacity { vec_capacity entries.new ≡ vec_capacity entries.old }
{
    let Some(place) = number_place(entries, number) else {
        unreachable!()
    };
    take_entry(entries, place)
}

/// Gives the header of the number, which is in no list, to the owner, and answers how it was.
pub fn give(entries: &mut Vec<Entry>, number: u64, owner: Owner) -> HeaderState
    requires outside { MatchOption (find_header number (headers_of entries.old.items)) ⊥ (λ r. r.state.queue ≡ Out) }
    requires once { Once (headers_of entries.old.items) }
    requires kept { Each IsKept entries.old.items }
    ensures before { option_map state_of (find_header number (headers_of entries.old.items)) ≡ Some result }
    ensures headers { headers_of entries.new.items ≡ changed number (given_to owner) (headers_of entries.old.items) }
    ensures kept { Each IsKept entries.new.items }
    ensures keys { KeepsKeys entries.old.items entries.new.items }
    ensures capacity { vec_capacity entries.new ≡ vec_capacity entries.old }
{
    let Some(place) = number_place(entries, number) else {
        unreachable!()
    };
    let entry = &mut entries[place];
    let before = entry.state;
    entry.state.owner = owner;
    before
}

fn clear_kept(kept: &mut Option<Header>)
    ensures { kept.new ≡ option_map emptied_header kept.old }
{
    if let Some(header) = kept {
        header.clear();
    }
}

fn clear_todo_entry(entry: &mut Entry, key: PortKey)
    ensures { entry.new ≡ entry_cleared (in_todo key entry.old.state) entry.old }
{
    if waits_in_todo(key, &entry.state) {
        clear_kept(&mut entry.kept);
    }
}

fn clear_done_entry(entry: &mut Entry, key: PortKey)
    ensures { entry.new ≡ entry_cleared (in_done key entry.old.state) entry.old }
{
    if waits_in_done(key, &entry.state) {
        clear_kept(&mut entry.kept);
    }
}

fn clear_todo_entries(entries: &mut [Entry], key: PortKey)
    ensures { entries.new ≡ map (λ e. entry_cleared (in_todo key e.state) e) entries.old }
{
    for entry in entries.iter_mut() {
        clear_todo_entry(entry, key);
    }
}

/// Clears every header of `todo`.
pub fn clear_todo(entries: &mut Vec<Entry>, key: PortKey)
    requires { Each IsKept entries.old.items }
    ensures headers { headers_of entries.new.items
        ≡ map (λ r. cleared_where (in_todo key r.state) r) (headers_of entries.old.items) }
    ensures kept { Each IsKept entries.new.items }
    ensures keys { KeepsKeys entries.old.items entries.new.items }
    ensures capacity { vec_capacity entries.new ≡ vec_capacity entries.old }
{
    clear_todo_entries(entries, key);
}

fn clear_done_entries(entries: &mut [Entry], key: PortKey)
    ensures { entries.new ≡ map (λ e. entry_cleared (in_done key e.state) e) entries.old }
{
    for entry in entries.iter_mut() {
        clear_done_entry(entry, key);
    }
}

/// Clears every header of `done`.
pub fn clear_done(entries: &mut Vec<Entry>, key: PortKey)
    requires { Each IsKept entries.old.items }
    ensures headers { headers_of entries.new.items
        ≡ map (λ r. cleared_where (in_done key r.state) r) (headers_of entries.old.items) }
    ensures kept { Each IsKept entries.new.items }
    ensures keys { KeepsKeys entries.old.items entries.new.items }
    ensures capacity { vec_capacity entries.new ≡ vec_capacity entries.old }
{
    clear_done_entries(entries, key);
}

fn is_unmarked(kept: &Option<Header>) -> bool
    ensures { result ≡ is_none (load_of_kept kept.now).mark }
{
    match kept {
        Some(header) => header.mark().is_none(),
        None => true,
    }
}

/// Whether the header of the number is there, and has no mark.
fn has_unmarked(entries: &[Entry], number: u64) -> bool
    requires { Once (headers_of entries.now) }
    ensures { result ≡ has_no_mark (find_header number (headers_of entries.now)) }
{
    let Some(place) = number_place(entries, number) else {
        return false;
    };
    let entry = &entries[place];
    is_unmarked(&entry.kept)
}

/// The first of the numbers whose header has no mark.
pub fn first_unmarked(entries: &[Entry], todo: &HeapCircularBuffer<u64>) -> Option<u64>
    requires { Once (headers_of entries.now) }
    ensures { result ≡ slice_get (unmarked_of (headers_of entries.now) todo.now.items) 0 }
{
    for place in 0..todo.len() {
        let Some(number) = todo.get(place) else {
            unreachable!()
        };
        if has_unmarked(entries, *number) {
            return Some(*number);
        }
    }
    None
}

fn mark_kept(kept: &mut Option<Header>, mark: Mark)
    ensures { kept.new ≡ option_map (marked_header mark) kept.old }
{
    if let Some(header) = kept {
        header.mark_with(mark);
    }
}

/// Gives the mark to the header of the number, which waits in a list.
pub fn mark(entries: &mut Vec<Entry>, number: u64, mark: Mark)
    requires waits { MatchOption (find_header number (headers_of entries.old.items)) ⊥ (λ r. is_waiting r.state.queue ≡ true) }
    requires once { Once (headers_of entries.old.items) }
    requires kept { Each IsKept entries.old.items }
    ensures headers { headers_of entries.new.items ≡ changed number (marked_record (Some mark)) (headers_of entries.old.items) }
    ensures kept { Each IsKept entries.new.items }
    ensures keys { KeepsKeys entries.old.items entries.new.items }
    ensures capacity { vec_capacity entries.new ≡ vec_capacity entries.old }
{
    let Some(place) = number_place(entries, number) else {
        unreachable!()
    };
    let entry = &mut entries[place];
    mark_kept(&mut entry.kept, mark);
}

/// What is known of the header of the number.
pub fn state_of(entries: &[Entry], number: u64) -> Option<HeaderState>
    requires { Once (headers_of entries.now) }
    ensures { result ≡ option_map state_of (find_header number (headers_of entries.now)) }
{
    let Some(place) = number_place(entries, number) else {
        return None;
    };
    let entry = &entries[place];
    Some(entry.state)
}
