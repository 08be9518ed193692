//! A sink into memory of limited room, whose writes may be set to fail.

ghost use Rattle.std.specs.Io.{WritesAtMost};
ghost use Rattle.std.specs.Io.KnownBytes.{append_known};
ghost use Rattle.std.specs.Prelude.{◌≡◌, ◌≤◌, ◌<◌, length, take, string_bytes, OnErr, [], vec_len, vec_capacity, Some, IfOk, option_map};
ghost use Rattle.outside_io.specs.Causes.{HasCause};
ghost use Rattle.outside_io.specs.Named.{name_in};
ghost use Rattle.outside_io.specs.Writings.{after};
ghost use Rattle.outside_io.specs.declared.writing.Writing.TheVariants.{Going};

use crate::calls::Calls;
use crate::entries::Entry;
use crate::fails::FailKind;
use crate::named::{Named, of_name};
use crate::plans::Planned;
use crate::{Failed, OutOfMemory, Sink, Writing};
use std::alloc::Global;

/// A sink into memory. Its room, the place of its file and that of its failures are reserved, so writing and closing take no memory.
#[derive(Drop)]
pub struct MemorySink {
    pub(crate) name: String,
    pub(crate) bytes: Vec<u8>,
    pub(crate) spare: Box<Entry>,
    pub(crate) failures: Box<Named>,
    room: usize,
    pub(crate) writes: Calls,
    pub(crate) faults: u64,
    writing: Writing,
    ghost reserved: { room ≤ vec_capacity bytes },
    ghost within: { vec_len bytes ≤ room },
    ghost named: { name_in failures ≡ string_bytes name },
}

impl MemorySink {
    ghost use Rattle.outside_io.specs.Memory.{sink_bytes, sink_room, sink_faults, sink_writes, sink_writing};
    ghost use Rattle.outside_io.specs.MemoryFiles.{IsNewSink};

    /// An empty sink that takes this many bytes, and fails only where none of its room is left.
    pub fn new(alloc: Global, room: usize) -> Result<MemorySink, OutOfMemory>
        ensures bytes { IfOk result (λ sink. sink_bytes sink ≡ []) }
        ensures room { IfOk result (λ sink. sink_room sink ≡ room) }
        ensures faults { IfOk result (λ sink. sink_faults sink ≡ 0) }
        ensures writing { IfOk result (λ sink. sink_writing sink ≡ Going) }
        ensures no_write_fails { IfOk result (λ sink. (sink_writes sink).due.items ≡ []) }
    {
        MemorySink::planned(alloc, "", room, &[], of_name(alloc, "")?)
    }

    /// What it has taken.
    pub fn into_bytes(self) -> Vec<u8>
        ensures { result.items ≡ sink_bytes self }
    {
        self.bytes
    }

    /// A sink of that name, with an element for its failures.
    pub(crate) fn planned(
        alloc: Global,
        name: &str,
        room: usize,
        plans: &[Planned],
        failures: Box<Named>,
    ) -> Result<MemorySink, OutOfMemory>
        requires { name_in failures ≡ name.now }
        ensures { IfOk result (IsNewSink name.now room plans.now) }
    {
        let entry = Entry {
            name: String::new(alloc),
            bytes: Vec::new(alloc),
            older: None,
        };
        Ok(MemorySink {
            name: String::from_str(alloc, name)?,
            bytes: Vec::with_capacity(alloc, room)?,
            spare: Box::new(alloc, entry)?,
            failures,
            room,
            writes: Calls::new(Planned::due(alloc, plans, FailKind::Write, name)?),
            faults: 0,
            writing: Writing::Going,
        })
    }
}

impl Sink for MemorySink {
    ghost use Rattle.outside_io.specs.Memory.{sink_bytes, sink_name, sink_faults, sink_writing, Writes};

    ghost told = { λ s. Some (sink_bytes s) };

    ghost name = { sink_name };

    ghost faults = { sink_faults };

    ghost writing = { λ s. Some (sink_writing s) };

    fn faults(&self) -> u64 {
        self.faults
    }

    fn write(&mut self, piece: &[u8]) -> Result<usize, Failed>
        requires { 0 < length piece.now }
        ensures bound { WritesAtMost result piece.now }
        ensures some { IfOk result (λ count. 0 < count) }
        ensures taken { IfOk result (λ count. Some (sink_bytes self.new) ≡ append_known (Some (sink_bytes self.old)) (take count piece.now)) }
        ensures kept { OnErr result (Some (sink_bytes self.new) ≡ Some (sink_bytes self.old)) }
        ensures name { sink_name self.new ≡ sink_name self.old }
        ensures cause { HasCause (sink_faults self.old) (sink_faults self.new) result }
        ensures writing { Some (sink_writing self.new) ≡ option_map (after result) (Some (sink_writing self.old)) }
        ensures exactly { Writes self.old self.new (length piece.now) result }
    {
        let fails = self.writes.call();
        let left = self.room - self.bytes.len();
        if fails || left == 0 {
            self.faults = self.faults.saturating_add(1);
            self.writing = self.writing.after_failed();
            return Err(Failed);
        }
        let count = piece.len().min(left);
        match self.bytes.extend_from_slice(&piece[..count]) {
            Ok(()) => {
                self.writing = self.writing.after_done();
                Ok(count)
            }
            Err(_) => unreachable!(),
        }
    }
}
