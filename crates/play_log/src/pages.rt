//! The lines of several passes, which are written in one list by place.

ghost use Rattle.std.specs.Prelude.{◌≡◌, ◌<◌, ◌≤◌, ◌+◌, ◌++◌, ◌∷◌, List, [], All, false, IfOk, OnOk, codes, length};
ghost use Rattle.outside_io.specs.Causes.{HasCause};
ghost use Rattle.outside_io.specs.Keeping.{KeepsSink};
ghost use Rattle.play_log.specs.Gathering.{Puts};
ghost use Rattle.play_log.specs.Merged.{IsLeader, left_of, merged_all};
ghost use Rattle.play_log.specs.Places.{PlacedText, lists_of, numbered, numbered_from, text_place};

use crate::OutOfMemory;
use crate::gathered::Gathered;
use crate::pass_log::PassLog;
use outside_io::{Failed, Sink};
use std::alloc::AllocError;
use std::marker::Model;

/// How many passes a play has at most: the thread that it is called on, and eight workers.
const PASSES: usize = 9;

/// The lines of all passes of a play, with how many they are.
#[derive(Drop)]
pub(crate) struct Pages {
    logs: Vec<PassLog>,
    count: u64,
}

impl Model for Pages {
    ghost use Rattle.std.specs.Prelude.{ℕ, List, ◌≡◌, ◌≤◌, ◌++◌, codes, length};
    ghost use Rattle.play_log.specs.Merged.{merged_all};
    ghost use Rattle.play_log.specs.Places.{lists_of, numbered_from, text_place};

    ghost Value = { List ℕ };

    ghost view = { λ pages. numbered_from 1 (merged_all text_place (lists_of pages.logs.items)) ++ codes "end\n" };

    ghost invariant = { λ pages. (length pages.logs.items ≤ 9) × (pages.count ≡ length (merged_all text_place (lists_of pages.logs.items))) };
}

impl Pages {
    /// The lines of the passes, unless one of them wants a line, or there are more than can be numbered.
    pub(crate) fn new(logs: Vec<PassLog>) -> Result<Pages, OutOfMemory>
        requires { length logs.items ≤ 9 }
        ensures text { IfOk result (λ pages. pages ≡ numbered_from 1 (merged_all text_place (lists_of logs.items)) ++ codes "end\n") }
        ensures whole { OnOk result (All (λ log. log.broken ≡ false) logs.items) }
    {
        let count = count_all(logs.as_slice())?;
        Ok(Pages { logs, count })
    }

    /// The text comes behind what is gathered.
    pub(crate) fn put<K: Sink>(&self, held: &mut Gathered, sink: &mut K) -> Result<(), Failed>
        ensures puts { Puts (K.told sink.old) (K.told sink.new) held.old.held held.new.held self.now result }
        ensures keeps_sink { KeepsSink K.Sink sink.old sink.new }
        ensures cause { HasCause (K.faults sink.old) (K.faults sink.new) result }
    {
        put_merged(self.logs.as_slice(), self.count, held, sink)?;
        held.put(b"end\n", sink)
    }
}

/// How many lines all passes have.
fn count_all(logs: &[PassLog]) -> Result<u64, OutOfMemory>
    ensures count { IfOk result (λ count. count ≡ length (merged_all text_place (lists_of logs.now))) }
    ensures whole { OnOk result (All (λ log. log.broken ≡ false) logs.now) }
{
    let mut count: u64 = 0;
    for log in logs {
        if !log.is_whole() {
            return Err(AllocError);
        }
        let Some(more) = count.checked_add(log.count()) else {
            return Err(AllocError);
        };
        count = more;
    }
    Ok(count)
}

/// All lines come behind what is gathered, by place, with their numbers.
fn put_merged<K: Sink>(
    logs: &[PassLog],
    count: u64,
    held: &mut Gathered,
    sink: &mut K,
) -> Result<(), Failed>
    requires few { length logs.now ≤ 9 }
    requires count { count ≡ length (merged_all text_place (lists_of logs.now)) }
    ensures puts { Puts (K.told sink.old) (K.told sink.new) held.old.held held.new.held (numbered_from 1 (merged_all text_place (lists_of logs.now))) result }
    ensures keeps_sink { KeepsSink K.Sink sink.old sink.new }
    ensures cause { HasCause (K.faults sink.old) (K.faults sink.new) result }
{
    let mut at = [0usize; PASSES];
    for number in 0..count {
        put_first(logs, &mut at, number + 1, held, sink)?;
    }
    Ok(())
}

/// The first of the lines that are left comes behind what is gathered, and is left no longer.
fn put_first<K: Sink>(
    logs: &[PassLog],
    at: &mut [usize; PASSES],
    number: u64,
    held: &mut Gathered,
    sink: &mut K,
) -> Result<(), Failed>
    requires few { length logs.now ≤ 9 }
    requires left { 0 < length (merged_all text_place (left_of at.old (lists_of logs.now))) }
    ensures puts { (t : PlacedText) (more : List PlacedText) → merged_all text_place (left_of at.old (lists_of logs.now)) ≡ t ∷ more
        → Puts (K.told sink.old) (K.told sink.new) held.old.held held.new.held (numbered number t) result }
    ensures left { (t : PlacedText) (more : List PlacedText) → merged_all text_place (left_of at.old (lists_of logs.now)) ≡ t ∷ more
        → OnOk result (merged_all text_place (left_of at.new (lists_of logs.now)) ≡ more) }
    ensures keeps_sink { KeepsSink K.Sink sink.old sink.new }
    ensures cause { HasCause (K.faults sink.old) (K.faults sink.new) result }
{
    let Some((page, _)) = first(logs, at) else {
        unreachable!()
    };
    at[page] = logs[page].put_at(at[page], number, held, sink)?;
    Ok(())
}

/// The pass whose line is the first of those that are left, with that line's place.
fn first(logs: &[PassLog], at: &[usize; PASSES]) -> Option<(usize, u64)>
    requires few { length logs.now ≤ 9 }
    ensures { IsLeader text_place at.now (lists_of logs.now) 0 result }
{
    let mut best = None;
    let mut page = logs.len();
    while page > 0 {
        page -= 1;
        best = nearer(logs, at, page, best);
    }
    best
}

/// That pass, or the best of those behind it, whichever line has the lower place.
fn nearer(
    logs: &[PassLog],
    at: &[usize; PASSES],
    page: usize,
    best: Option<(usize, u64)>,
) -> Option<(usize, u64)>
    requires few { length logs.now ≤ 9 }
    requires within { page < length logs.now }
    requires best { IsLeader text_place at.now (lists_of logs.now) (page + 1) best }
    ensures { IsLeader text_place at.now (lists_of logs.now) page result }
{
    match logs[page].place_at(at[page]) {
        None => best,
        Some(place) => match best {
            Some((other, least)) => {
                if place < least {
                    Some((page, place))
                } else {
                    Some((other, least))
                }
            }
            None => Some((page, place)),
        },
    }
}
