//! A source over bytes in memory, whose reads and seeks may be set to fail, and which may end early.

ghost use Rattle.std.specs.Io.{ReadsAtMost};
ghost use Rattle.std.specs.Prelude.{◌≡◌, ◌+◌, ◌<◌, ◌≤◌, max, min, length, take, drop, string_bytes, vec_len, [], Some, IfOk, OnOk};
ghost use Rattle.outside_io.specs.Asking.{asked_up_to};
ghost use Rattle.outside_io.specs.Causes.{HasCause};
ghost use Rattle.outside_io.specs.Moves.{WhereTold};
ghost use Rattle.outside_io.specs.Named.{name_in};

use crate::calls::Calls;
use crate::fails::FailKind;
use crate::named::{Named, of_name};
use crate::plans::Planned;
use crate::{Failed, OutOfMemory, Source};
use std::alloc::Global;

/// A source over bytes in memory. The place of its failures is reserved, so reading and closing take no memory.
#[derive(Drop)]
pub struct MemorySource {
    pub(crate) name: String,
    pub(crate) failures: Box<Named>,
    bytes: Vec<u8>,
    offset: usize,
    end: u64,
    asked: u64,
    pub(crate) reads: Calls,
    pub(crate) seeks: Calls,
    pub(crate) faults: u64,
    ghost within: { offset ≤ vec_len bytes },
    ghost named: { name_in failures ≡ string_bytes name },
}

impl MemorySource {
    ghost use Rattle.outside_io.specs.Memory.{source_bytes, source_offset, source_ends, source_asked, source_faults, source_reads, source_seeks};
    ghost use Rattle.outside_io.specs.MemoryFiles.{IsNewSource};

    /// A source that stands at offset 0, never fails and gives all its bytes.
    pub fn new(bytes: Vec<u8>) -> Result<MemorySource, OutOfMemory>
        ensures bytes { IfOk result (λ source. source_bytes source ≡ bytes.items) }
        ensures offset { IfOk result (λ source. source_offset source ≡ 0) }
        ensures ends { IfOk result (λ source. length bytes.items ≤ source_ends source) }
        ensures asked { IfOk result (λ source. source_asked source ≡ 0) }
        ensures faults { IfOk result (λ source. source_faults source ≡ 0) }
        ensures no_read_fails { IfOk result (λ source. (source_reads source).due.items ≡ []) }
        ensures no_seek_fails { IfOk result (λ source. (source_seeks source).due.items ≡ []) }
    {
        let alloc = *bytes.allocator();
        Ok(MemorySource {
            name: String::new(alloc),
            failures: of_name(alloc, "")?,
            bytes,
            offset: 0,
            end: u64::MAX,
            asked: 0,
            reads: Calls::sound(alloc),
            seeks: Calls::sound(alloc),
            faults: 0,
        })
    }

    /// A source of the file of that name, with an element for its failures.
    pub(crate) fn planned(
        alloc: Global,
        name: &str,
        bytes: &[u8],
        plans: &[Planned],
        failures: Box<Named>,
    ) -> Result<MemorySource, OutOfMemory>
        requires { name_in failures ≡ name.now }
        ensures { IfOk result (IsNewSource name.now bytes.now plans.now) }
    {
        Ok(MemorySource {
            name: String::from_str(alloc, name)?,
            failures,
            bytes: bytes.to_vec(alloc)?,
            offset: 0,
            end: Planned::end(plans, name),
            asked: 0,
            reads: Calls::new(Planned::due(alloc, plans, FailKind::Read, name)?),
            seeks: Calls::new(Planned::due(alloc, plans, FailKind::Seek, name)?),
            faults: 0,
        })
    }
}

impl Source for MemorySource {
    ghost use Rattle.outside_io.specs.Memory.{source_bytes, source_name, source_offset, source_ends, source_asked, source_faults, Reads, Seeks};

    ghost told = { λ s. Some (source_bytes s) };

    ghost name = { source_name };

    ghost ends = { λ s. Some (source_ends s) };

    ghost size = { λ s. length (source_bytes s) };

    ghost offset = { source_offset };

    ghost asked = { λ s. Some (source_asked s) };

    ghost faults = { source_faults };

    fn size(&self) -> u64 {
        self.bytes.len() as u64
    }

    fn offset(&self) -> u64 {
        self.offset as u64
    }

    fn faults(&self) -> u64 {
        self.faults
    }

    fn read(&mut self, buf: &mut [u8]) -> Result<usize, Failed>
        requires { 0 < length buf.old }
        ensures bound { ReadsAtMost result buf.new }
        ensures told { Some (source_bytes self.new) ≡ Some (source_bytes self.old) }
        ensures name { source_name self.new ≡ source_name self.old }
        ensures ends { Some (source_ends self.new) ≡ Some (source_ends self.old) }
        ensures size { length (source_bytes self.new) ≡ length (source_bytes self.old) }
        ensures offset { IfOk result (λ count. source_offset self.new ≡ source_offset self.old + count) }
        ensures within { source_offset self.new ≤ length (source_bytes self.new) }
        ensures bytes { WhereTold (Some (source_bytes self.old)) (λ bytes. IfOk result (λ count.
            take count buf.new ≡ take count (drop (source_offset self.old) bytes))) }
        ensures gives { WhereTold (Some (source_ends self.old)) (λ end. IfOk result (λ count.
            source_offset self.old < min end (length (source_bytes self.old)) → 0 < count)) }
        ensures stops { WhereTold (Some (source_ends self.old)) (λ end. OnOk result (
            source_offset self.new ≤ max end (source_offset self.old))) }
        ensures asked { Some (source_asked self.new) ≡ asked_up_to (Some (source_asked self.old)) (source_offset self.old + length buf.old) }
        ensures cause { HasCause (source_faults self.old) (source_faults self.new) result }
        ensures exactly { Reads self.old self.new (length buf.old) result }
    {
        self.asked = self.asked.max(self.offset as u64 + buf.len() as u64);
        if self.reads.call() {
            self.faults = self.faults.saturating_add(1);
            return Err(Failed);
        }
        let mut end = self.bytes.len();
        if self.end < end as u64 {
            end = self.end as usize;
        }
        if end <= self.offset {
            return Ok(0);
        }
        let count = buf.len().min(end - self.offset);
        buf[..count].copy_from_slice(&self.bytes[self.offset..self.offset + count]);
        self.offset += count;
        Ok(count)
    }

    fn seek_to(&mut self, to: u64) -> Result<(), Failed>
        requires { to ≤ length (source_bytes self.old) }
        ensures told { Some (source_bytes self.new) ≡ Some (source_bytes self.old) }
        ensures name { source_name self.new ≡ source_name self.old }
        ensures ends { Some (source_ends self.new) ≡ Some (source_ends self.old) }
        ensures size { length (source_bytes self.new) ≡ length (source_bytes self.old) }
        ensures reached { OnOk result (source_offset self.new ≡ to) }
        ensures within { source_offset self.new ≤ length (source_bytes self.new) }
        ensures asked { Some (source_asked self.new) ≡ Some (source_asked self.old) }
        ensures cause { HasCause (source_faults self.old) (source_faults self.new) result }
        ensures exactly { Seeks self.old self.new result }
    {
        if self.seeks.call() {
            self.faults = self.faults.saturating_add(1);
            return Err(Failed);
        }
        self.offset = to as usize;
        Ok(())
    }
}
