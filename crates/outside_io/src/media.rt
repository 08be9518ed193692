//! The trait of media, which open and close sources and sinks by name, and why an opening is refused.

ghost use Rattle.std.specs.Prelude.{◌≡◌, ℕ, ◌<◌, ◌≤◌, List, [], length, Option, Some, None, IfOk, OnOk, OnErr, IsErrOf, IsTrue, IsFalse, IsSome};
ghost use Rattle.outside_io.specs.Causes.{HasCause, Rose, sum_of_counts};
ghost use Rattle.outside_io.specs.Files.{Outside, GoesOn, SameBut, IsFrontOf, failed_with, with_name};
ghost use Rattle.outside_io.specs.Moves.{WhereTold};

use crate::{Failed, Sink, Source};
use std::alloc::Global;

/// Why a name was not opened.
#[derive(Clone, Copy, Debug, PartialEq, Eq)]
pub enum Refused {
    /// A source's file isn't there, or a sink's file can't be made at that name.
    Absent,
    /// The opening failed, and was counted.
    Failed,
    OutOfMemory,
}

/// Named files, of which sources and sinks are opened. A media may tell its files: then each source tells its bytes,
/// and only the closing of a sink changes a told file, namely that of its name. It may also tell the sink names that it
/// may refuse, and for each name the offset from which on its sources give nothing; both stay the same over all its calls.
/// It may tell the names that it was asked to open, and those of failed reads and of failed writes, each in the order of
/// the calls.
/// Counts never fall, and stay at their last value. A call raises only the count
/// of its own answer, and what is opened has failed in no call yet.
pub trait Media {
    type Src: Source + Send;

    type Snk: Sink + Send;

    /// What it tells, and its counts.
    ghost outside: { Self → Outside };

    fn read_faults(&self) -> u64
        ensures { result ≡ (outside self.now).read_faults };

    fn write_faults(&self) -> u64
        ensures { result ≡ (outside self.now).write_faults };

    fn absences(&self) -> u64
        ensures { result ≡ (outside self.now).absences };

    fn source(&mut self, alloc: Global, name: &str) -> Result<Self::Src, Refused>
        ensures goes_on { GoesOn (outside self.old) (outside self.new) }
        ensures files { (outside self.new).file ≡ (outside self.old).file }
        ensures told { IfOk result (λ src. Self.Src.told src ≡ (outside self.old).file name.now) }
        ensures there { IsTrue (outside self.old).tells → OnOk result (IsSome ((outside self.old).file name.now)) }
        ensures name { IsTrue (outside self.old).tells → IfOk result (λ src. Self.Src.name src ≡ name.now) }
        ensures size { WhereTold ((outside self.old).file name.now) (λ bytes. IfOk result (λ src. Self.Src.size src ≡ length bytes)) }
        ensures offset { IfOk result (λ src. Self.Src.offset src ≡ 0) }
        ensures ends { IfOk result (λ src. Self.Src.ends src ≡ (outside self.old).ends name.now) }
        ensures absent { IsErrOf result Refused.Absent → Rose (outside self.old).absences (outside self.new).absences }
        ensures absent_name { IsErrOf result Refused.Absent → (outside self.old).file name.now ≡ None }
        ensures absences { IsSome ((outside self.old).file name.now) → (outside self.new).absences ≡ (outside self.old).absences }
        ensures failed { IsErrOf result Refused.Failed → Rose (outside self.old).read_faults (outside self.new).read_faults }
        ensures reads_stay { ¬ (IsErrOf result Refused.Failed) → (outside self.new).read_faults ≡ (outside self.old).read_faults }
        ensures absences_stay { ¬ (IsErrOf result Refused.Absent) → (outside self.new).absences ≡ (outside self.old).absences }
        ensures unfailed { IfOk result (λ src. Self.Src.faults src ≡ 0) }
        ensures asked { ¬ (IsErrOf result Refused.OutOfMemory) → (outside self.new).openings ≡ with_name name.now 1 (outside self.old).openings }
        ensures failed_name { IsErrOf result Refused.Failed → (outside self.new).failed_reads ≡ with_name name.now 1 (outside self.old).failed_reads }
        ensures none_failed { ¬ (IsErrOf result Refused.Failed) → (outside self.new).failed_reads ≡ (outside self.old).failed_reads }
        ensures failed_writes { (outside self.new).failed_writes ≡ (outside self.old).failed_writes }
        ensures write_faults { (outside self.new).write_faults ≡ (outside self.old).write_faults };

    fn sink(&mut self, alloc: Global, name: &str) -> Result<Self::Snk, Refused>
        ensures goes_on { GoesOn (outside self.old) (outside self.new) }
        ensures files { (outside self.new).file ≡ (outside self.old).file }
        ensures told { IsTrue (outside self.old).tells → IfOk result (λ snk. Self.Snk.told snk ≡ Some []) }
        ensures name { IsTrue (outside self.old).tells → IfOk result (λ snk. Self.Snk.name snk ≡ name.now) }
        ensures absent { IsErrOf result Refused.Absent → Rose (outside self.old).absences (outside self.new).absences }
        ensures absent_name { IsErrOf result Refused.Absent → IsTrue ((outside self.old).may_refuse name.now) }
        ensures absences { IsFalse ((outside self.old).may_refuse name.now) → (outside self.new).absences ≡ (outside self.old).absences }
        ensures failed { IsErrOf result Refused.Failed → Rose (outside self.old).write_faults (outside self.new).write_faults }
        ensures writes_stand { ¬ (IsErrOf result Refused.Failed) → (outside self.new).write_faults ≡ (outside self.old).write_faults }
        ensures absences_stay { ¬ (IsErrOf result Refused.Absent) → (outside self.new).absences ≡ (outside self.old).absences }
        ensures unfailed { IfOk result (λ snk. Self.Snk.faults snk ≡ 0) }
        ensures asked { ¬ (IsErrOf result Refused.OutOfMemory) → (outside self.new).openings ≡ with_name name.now 1 (outside self.old).openings }
        ensures failed_name { IsErrOf result Refused.Failed → (outside self.new).failed_writes ≡ with_name name.now 1 (outside self.old).failed_writes }
        ensures none_failed { ¬ (IsErrOf result Refused.Failed) → (outside self.new).failed_writes ≡ (outside self.old).failed_writes }
        ensures failed_reads { (outside self.new).failed_reads ≡ (outside self.old).failed_reads }
        ensures read_faults { (outside self.new).read_faults ≡ (outside self.old).read_faults };

    fn close_source(&mut self, src: Self::Src)
        ensures goes_on { GoesOn (outside self.old) (outside self.new) }
        ensures files { (outside self.new).file ≡ (outside self.old).file }
        ensures absences { (outside self.new).absences ≡ (outside self.old).absences }
        ensures write_faults { (outside self.new).write_faults ≡ (outside self.old).write_faults }
        ensures openings { (outside self.new).openings ≡ (outside self.old).openings }
        ensures failed_names { (outside self.new).failed_reads ≡ with_name (Self.Src.name src) (Self.Src.faults src) (outside self.old).failed_reads }
        ensures failed_writes { (outside self.new).failed_writes ≡ (outside self.old).failed_writes }
        ensures added { (outside self.new).read_faults ≡ sum_of_counts (outside self.old).read_faults (Self.Src.faults src) };

    fn close_sink(&mut self, snk: Self::Snk) -> Result<(), Failed>
        ensures goes_on { GoesOn (outside self.old) (outside self.new) }
        ensures others { SameBut (Self.Snk.name snk) (outside self.old) (outside self.new) }
        ensures held { OnOk result ((outside self.new).file (Self.Snk.name snk) ≡ Self.Snk.told snk) }
        ensures front { OnErr result (WhereTold (Self.Snk.told snk) (IsFrontOf ((outside self.new).file (Self.Snk.name snk)))) }
        ensures absences { (outside self.new).absences ≡ (outside self.old).absences }
        ensures read_faults { (outside self.new).read_faults ≡ (outside self.old).read_faults }
        ensures added { sum_of_counts (outside self.old).write_faults (Self.Snk.faults snk) ≤ (outside self.new).write_faults }
        ensures closed { OnOk result ((outside self.new).write_faults ≡ sum_of_counts (outside self.old).write_faults (Self.Snk.faults snk)) }
        ensures openings { (outside self.new).openings ≡ (outside self.old).openings }
        ensures failed_reads { (outside self.new).failed_reads ≡ (outside self.old).failed_reads }
        ensures failed_names { (outside self.new).failed_writes ≡ with_name (Self.Snk.name snk) (failed_with (Self.Snk.faults snk) result) (outside self.old).failed_writes }
        ensures failed { OnErr result (Rose (sum_of_counts (outside self.old).write_faults (Self.Snk.faults snk)) (outside self.new).write_faults) };
}
