//! A media of files in memory, with injected failures and sinks of limited room.

ghost use Rattle.std.specs.Prelude.{◌≡◌, ◌≤◌, ℕ, List, [], length, IfOk, OnOk, OnErr, IsErrOf, IsTrue, IsFalse, IsSome, MatchOption, None, Some};
ghost use Rattle.outside_io.specs.Causes.{Rose, sum_of_counts};
ghost use Rattle.outside_io.specs.Files.{GoesOn, SameBut, IsFrontOf, failed_with, with_name};
ghost use Rattle.outside_io.specs.Moves.{WhereTold};

use crate::entries::{Entry, find};
use crate::fails::{Fail, FailKind};
use crate::named::{Named, keep, of_name, put};
use crate::plans::Planned;
use crate::{Failed, Media, MemorySink, MemorySource, OutOfMemory, Refused};
use std::alloc::Global;

/// Files in memory, with calls that are to fail, and a room for each sink. It tells everything. Where a listed opening of
/// a sink is both absent and failing, it is absent. The reads, seeks and writes of an object are added to those of its
/// name when it is closed: of objects that are open at once under one name, each goes on from what was known at its
/// opening.
#[derive(Drop)]
pub struct MemoryMedia {
    entries: Option<Box<Entry>>,
    plans: Vec<Planned>,
    room: usize,
    read_faults: u64,
    write_faults: u64,
    absences: u64,
    openings: Vec<String>,
    failed_reads: Option<Box<Named>>,
    failed_writes: Option<Box<Named>>,
}

impl MemoryMedia {
    ghost use Rattle.outside_io.specs.Fails.{ends_of, planned, refuses};
    ghost use Rattle.outside_io.specs.MemoryFiles.{memory_file, memory_outside, memory_plans, memory_room, chained, HasCounts};

    /// Of files of one name the first is there. Each sink has a room of this many bytes.
    pub fn new(
        alloc: Global,
        files: Vec<(String, Vec<u8>)>,
        fails: Vec<Fail>,
        room: usize,
    ) -> Result<MemoryMedia, OutOfMemory>
        requires { room ≤ 268435456 }
        ensures files { IfOk result (λ media. (asked : List ℕ) → memory_file media asked ≡ chained files.items (λ _. None) asked) }
        ensures fails { IfOk result (λ media. memory_plans media ≡ planned fails.items) }
        ensures room { IfOk result (λ media. memory_room media ≡ room) }
        ensures ends { IfOk result (λ media. (memory_outside media).ends ≡ ends_of fails.items) }
        ensures refuses { IfOk result (λ media. (memory_outside media).may_refuse ≡ refuses fails.items) }
        ensures counts { IfOk result (λ media. HasCounts media 0 0 0) }
    {
        let mut entries = None;
        let mut files = files;
        while let Some((name, bytes)) = files.pop() {
            let entry = Entry {
                name,
                bytes,
                older: entries,
            };
            entries = Some(Box::new(alloc, entry)?);
        }
        Ok(MemoryMedia {
            entries,
            plans: Planned::all(alloc, fails)?,
            room,
            read_faults: 0,
            write_faults: 0,
            absences: 0,
            openings: Vec::new(alloc),
            failed_reads: None,
            failed_writes: None,
        })
    }

    /// The content of a file.
    pub fn file(&self, name: &str) -> Option<&[u8]>
        ensures { MatchOption result (memory_file self.now name.now ≡ None) (λ bytes. memory_file self.now name.now ≡ Some bytes.now) }
    {
        find(&self.entries, name)
    }
}

impl Media for MemoryMedia {
    ghost use Rattle.outside_io.specs.Memory.{source_bytes, source_name, source_faults, source_offset, source_ends, sink_bytes, sink_name, sink_faults};
    ghost use Rattle.outside_io.specs.MemoryFiles.{memory_outside, OpensSource, OpensSink, ClosesSource, ClosesSink};

    type Src = MemorySource;

    type Snk = MemorySink;

    ghost outside = { memory_outside };

    fn read_faults(&self) -> u64 {
        self.read_faults
    }

    fn write_faults(&self) -> u64 {
        self.write_faults
    }

    fn absences(&self) -> u64 {
        self.absences
    }

    fn source(&mut self, alloc: Global, name: &str) -> Result<MemorySource, Refused>
        ensures goes_on { GoesOn (memory_outside self.old) (memory_outside self.new) }
        ensures files { (memory_outside self.new).file ≡ (memory_outside self.old).file }
        ensures told { IfOk result (λ src. Some (source_bytes src) ≡ (memory_outside self.old).file name.now) }
        ensures there { IsTrue (memory_outside self.old).tells → OnOk result (IsSome ((memory_outside self.old).file name.now)) }
        ensures name { IsTrue (memory_outside self.old).tells → IfOk result (λ src. source_name src ≡ name.now) }
        ensures size { WhereTold ((memory_outside self.old).file name.now) (λ bytes. IfOk result (λ src. length (source_bytes src) ≡ length bytes)) }
        ensures offset { IfOk result (λ src. source_offset src ≡ 0) }
        ensures ends { IfOk result (λ src. Some (source_ends src) ≡ (memory_outside self.old).ends name.now) }
        ensures absent { IsErrOf result Refused.Absent → Rose (memory_outside self.old).absences (memory_outside self.new).absences }
        ensures absent_name { IsErrOf result Refused.Absent → (memory_outside self.old).file name.now ≡ None }
        ensures absences { IsSome ((memory_outside self.old).file name.now) → (memory_outside self.new).absences ≡ (memory_outside self.old).absences }
        ensures failed { IsErrOf result Refused.Failed → Rose (memory_outside self.old).read_faults (memory_outside self.new).read_faults }
        ensures reads_stay { ¬ (IsErrOf result Refused.Failed) → (memory_outside self.new).read_faults ≡ (memory_outside self.old).read_faults }
        ensures absences_stay { ¬ (IsErrOf result Refused.Absent) → (memory_outside self.new).absences ≡ (memory_outside self.old).absences }
        ensures unfailed { IfOk result (λ src. source_faults src ≡ 0) }
        ensures asked { ¬ (IsErrOf result Refused.OutOfMemory) → (memory_outside self.new).openings ≡ with_name name.now 1 (memory_outside self.old).openings }
        ensures failed_name { IsErrOf result Refused.Failed → (memory_outside self.new).failed_reads ≡ with_name name.now 1 (memory_outside self.old).failed_reads }
        ensures none_failed { ¬ (IsErrOf result Refused.Failed) → (memory_outside self.new).failed_reads ≡ (memory_outside self.old).failed_reads }
        ensures failed_writes { (memory_outside self.new).failed_writes ≡ (memory_outside self.old).failed_writes }
        ensures write_faults { (memory_outside self.new).write_faults ≡ (memory_outside self.old).write_faults }
        ensures exactly { OpensSource name.now self.old self.new result }
    {
        let Ok(failures) = of_name(alloc, name) else {
            return Err(Refused::OutOfMemory);
        };
        let Ok(()) = keep(alloc, &mut self.openings, name) else {
            return Err(Refused::OutOfMemory);
        };
        if Planned::call(&mut self.plans, FailKind::OpenSource, name) {
            put(&mut self.failed_reads, failures, 1);
            self.read_faults = self.read_faults.saturating_add(1);
            return Err(Refused::Failed);
        }
        let Some(bytes) = find(&self.entries, name) else {
            self.absences = self.absences.saturating_add(1);
            return Err(Refused::Absent);
        };
        match MemorySource::planned(alloc, name, bytes, &self.plans, failures) {
            Ok(source) => Ok(source),
            Err(_) => Err(Refused::OutOfMemory),
        }
    }

    fn sink(&mut self, alloc: Global, name: &str) -> Result<MemorySink, Refused>
        ensures goes_on { GoesOn (memory_outside self.old) (memory_outside self.new) }
        ensures files { (memory_outside self.new).file ≡ (memory_outside self.old).file }
        ensures told { IsTrue (memory_outside self.old).tells → IfOk result (λ snk. Some (sink_bytes snk) ≡ Some []) }
        ensures name { IsTrue (memory_outside self.old).tells → IfOk result (λ snk. sink_name snk ≡ name.now) }
        ensures absent { IsErrOf result Refused.Absent → Rose (memory_outside self.old).absences (memory_outside self.new).absences }
        ensures absent_name { IsErrOf result Refused.Absent → IsTrue ((memory_outside self.old).may_refuse name.now) }
        ensures absences { IsFalse ((memory_outside self.old).may_refuse name.now) → (memory_outside self.new).absences ≡ (memory_outside self.old).absences }
        ensures failed { IsErrOf result Refused.Failed → Rose (memory_outside self.old).write_faults (memory_outside self.new).write_faults }
        ensures writes_stand { ¬ (IsErrOf result Refused.Failed) → (memory_outside self.new).write_faults ≡ (memory_outside self.old).write_faults }
        ensures absences_stay { ¬ (IsErrOf result Refused.Absent) → (memory_outside self.new).absences ≡ (memory_outside self.old).absences }
        ensures unfailed { IfOk result (λ snk. sink_faults snk ≡ 0) }
        ensures asked { ¬ (IsErrOf result Refused.OutOfMemory) → (memory_outside self.new).openings ≡ with_name name.now 1 (memory_outside self.old).openings }
        ensures failed_name { IsErrOf result Refused.Failed → (memory_outside self.new).failed_writes ≡ with_name name.now 1 (memory_outside self.old).failed_writes }
        ensures none_failed { ¬ (IsErrOf result Refused.Failed) → (memory_outside self.new).failed_writes ≡ (memory_outside self.old).failed_writes }
        ensures failed_reads { (memory_outside self.new).failed_reads ≡ (memory_outside self.old).failed_reads }
        ensures read_faults { (memory_outside self.new).read_faults ≡ (memory_outside self.old).read_faults }
        ensures exactly { OpensSink name.now self.old self.new result }
    {
        let Ok(failures) = of_name(alloc, name) else {
            return Err(Refused::OutOfMemory);
        };
        let Ok(()) = keep(alloc, &mut self.openings, name) else {
            return Err(Refused::OutOfMemory);
        };
        let absent = Planned::call(&mut self.plans, FailKind::AbsentSink, name);
        let fails = Planned::call(&mut self.plans, FailKind::OpenSink, name);
        if absent {
            self.absences = self.absences.saturating_add(1);
            return Err(Refused::Absent);
        }
        if fails {
            put(&mut self.failed_writes, failures, 1);
            self.write_faults = self.write_faults.saturating_add(1);
            return Err(Refused::Failed);
        }
        match MemorySink::planned(alloc, name, self.room, &self.plans, failures) {
            Ok(sink) => Ok(sink),
            Err(_) => Err(Refused::OutOfMemory),
        }
    }

    fn close_source(&mut self, src: MemorySource)
        ensures goes_on { GoesOn (memory_outside self.old) (memory_outside self.new) }
        ensures files { (memory_outside self.new).file ≡ (memory_outside self.old).file }
        ensures absences { (memory_outside self.new).absences ≡ (memory_outside self.old).absences }
        ensures write_faults { (memory_outside self.new).write_faults ≡ (memory_outside self.old).write_faults }
        ensures openings { (memory_outside self.new).openings ≡ (memory_outside self.old).openings }
        ensures failed_names { (memory_outside self.new).failed_reads ≡ with_name (source_name src) (source_faults src) (memory_outside self.old).failed_reads }
        ensures failed_writes { (memory_outside self.new).failed_writes ≡ (memory_outside self.old).failed_writes }
        ensures added { (memory_outside self.new).read_faults ≡ sum_of_counts (memory_outside self.old).read_faults (source_faults src) }
        ensures exactly { ClosesSource src self.old self.new }
    {
        self.read_faults = self.read_faults.saturating_add(src.faults);
        let name = src.name.as_str();
        Planned::count(&mut self.plans, FailKind::Read, name, src.reads.made);
        Planned::count(&mut self.plans, FailKind::Seek, name, src.seeks.made);
        put(&mut self.failed_reads, src.failures, src.faults);
    }

    fn close_sink(&mut self, snk: MemorySink) -> Result<(), Failed>
        ensures goes_on { GoesOn (memory_outside self.old) (memory_outside self.new) }
        ensures others { SameBut (sink_name snk) (memory_outside self.old) (memory_outside self.new) }
        ensures held { OnOk result ((memory_outside self.new).file (sink_name snk) ≡ Some (sink_bytes snk)) }
        ensures front { OnErr result (WhereTold (Some (sink_bytes snk)) (IsFrontOf ((memory_outside self.new).file (sink_name snk)))) }
        ensures absences { (memory_outside self.new).absences ≡ (memory_outside self.old).absences }
        ensures read_faults { (memory_outside self.new).read_faults ≡ (memory_outside self.old).read_faults }
        ensures added { sum_of_counts (memory_outside self.old).write_faults (sink_faults snk) ≤ (memory_outside self.new).write_faults }
        ensures closed { OnOk result ((memory_outside self.new).write_faults ≡ sum_of_counts (memory_outside self.old).write_faults (sink_faults snk)) }
        ensures openings { (memory_outside self.new).openings ≡ (memory_outside self.old).openings }
        ensures failed_reads { (memory_outside self.new).failed_reads ≡ (memory_outside self.old).failed_reads }
        ensures failed_names { (memory_outside self.new).failed_writes ≡ with_name (sink_name snk) (failed_with (sink_faults snk) result) (memory_outside self.old).failed_writes }
        ensures failed { OnErr result (Rose (sum_of_counts (memory_outside self.old).write_faults (sink_faults snk)) (memory_outside self.new).write_faults) }
        ensures exactly { ClosesSink snk self.old self.new result }
    {
        self.write_faults = self.write_faults.saturating_add(snk.faults);
        let name = snk.name.as_str();
        Planned::count(&mut self.plans, FailKind::Write, name, snk.writes.made);
        let fails = Planned::call(&mut self.plans, FailKind::Close, name);
        let mut failed = snk.faults;
        let mut entry = snk.spare;
        entry.name = snk.name;
        entry.bytes = snk.bytes;
        if fails {
            self.write_faults = self.write_faults.saturating_add(1);
            failed = failed.saturating_add(1);
            let half = entry.bytes.len() / 2;
            entry.bytes.truncate(half);
        }
        entry.older = self.entries.take();
        self.entries = Some(entry);
        put(&mut self.failed_writes, snk.failures, failed);
        if fails { Err(Failed) } else { Ok(()) }
    }
}
