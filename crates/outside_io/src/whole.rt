//! Whole files are read and written by name, and why a file was not read whole.

ghost use Rattle.std.specs.Prelude.{◌≡◌, ◌≢◌, ◌≤◌, ℕ, length, Err, IfOk, IfErr, OnOk, OnErr, IsSome, IsFalse, IsTrue, Some};
ghost use Rattle.outside_io.specs.Files.{GoesOn, SameBut, with_name};
ghost use Rattle.outside_io.specs.Keeping.{KeepsSource};
ghost use Rattle.outside_io.specs.Moves.{WhereTold};
ghost use Rattle.outside_io.specs.Whole.{HasRestReason, HasReadReason, HasWriteReason, IsKeptOrFrontOf, WasOpened};

use crate::{Media, ReadStop, Refused, Source, read_exact, write_all};
use std::alloc::Global;

/// Why a file was not read whole.
#[derive(Clone, Copy, Debug, PartialEq, Eq)]
pub enum Unread {
    Absent,
    /// The opening or a read failed.
    Failed,
    /// It has more bytes than may be read.
    TooLong { size: u64 },
    /// It gave nothing at an offset below its size.
    Short { at: u64, size: u64 },
    OutOfMemory,
}

/// Reads a whole file of at most `most` bytes, and closes it. A file that is longer is not read at all.
pub fn read_whole<M: Media>(
    alloc: Global,
    media: &mut M,
    name: &str,
    most: u64,
) -> Result<Vec<u8>, Unread>
    ensures goes_on { GoesOn (M.outside media.old) (M.outside media.new) }
    ensures files { (M.outside media.new).file ≡ (M.outside media.old).file }
    ensures bytes { IsTrue (M.outside media.old).tells → IfOk result (λ bytes. (M.outside media.old).file name.now ≡ Some bytes.items) }
    ensures fits { IfOk result (λ bytes. length bytes.items ≤ most) }
    ensures given { WhereTold ((M.outside media.old).ends name.now) (λ end. IfOk result (λ bytes. length bytes.items ≤ end)) }
    ensures reason { IfErr result (HasReadReason name.now most (M.outside media.old) (M.outside media.new)) }
    ensures there { IsTrue (M.outside media.old).tells → IfErr result (λ unread. WasOpened unread → IsSome ((M.outside media.old).file name.now)) }
    ensures absences { IsSome ((M.outside media.old).file name.now) → (M.outside media.new).absences ≡ (M.outside media.old).absences }
    ensures read_stays { result ≢ Err Unread.Failed → (M.outside media.new).read_faults ≡ (M.outside media.old).read_faults }
    ensures absences_stay { result ≢ Err Unread.Absent → (M.outside media.new).absences ≡ (M.outside media.old).absences }
    ensures write_faults { (M.outside media.new).write_faults ≡ (M.outside media.old).write_faults }
    ensures asked { result ≢ Err Unread.OutOfMemory → (M.outside media.new).openings ≡ with_name name.now 1 (M.outside media.old).openings }
    ensures none_failed { result ≢ Err Unread.Failed → (M.outside media.new).failed_reads ≡ (M.outside media.old).failed_reads }
    ensures failed_writes { (M.outside media.new).failed_writes ≡ (M.outside media.old).failed_writes }
{
    let mut source = match media.source(alloc, name) {
        Ok(source) => source,
        Err(Refused::Absent) => return Err(Unread::Absent),
        Err(Refused::Failed) => return Err(Unread::Failed),
        Err(Refused::OutOfMemory) => return Err(Unread::OutOfMemory),
    };
    let read = read_rest(alloc, &mut source, most);
    media.close_source(source);
    read
}

/// Reads the bytes of a source that was just opened.
fn read_rest<S: Source>(alloc: Global, source: &mut S, most: u64) -> Result<Vec<u8>, Unread>
    requires { S.offset source.old ≡ 0 }
    ensures bytes { IfOk result (λ bytes. WhereTold (S.told source.old) (λ told. bytes.items ≡ told)) }
    ensures fits { IfOk result (λ bytes. length bytes.items ≤ most) }
    ensures given { WhereTold (S.ends source.old) (λ end. IfOk result (λ bytes. length bytes.items ≤ end)) }
    ensures keeps_source { KeepsSource S.Source source.old source.new }
    ensures stays { result ≢ Err Unread.Failed → S.faults source.new ≡ S.faults source.old }
    ensures reason { IfErr result (HasRestReason (S.told source.old) (S.ends source.old) most (S.faults source.old) (S.faults source.new)) }
{
    let size = source.size();
    if size > most {
        return Err(Unread::TooLong { size });
    }
    let Ok(mut bytes) = vec![in alloc; 0u8; size as usize] else {
        return Err(Unread::OutOfMemory);
    };
    match read_exact(source, &mut bytes) {
        Ok(()) => Ok(bytes),
        Err(stop) => match stop {
            ReadStop::Failed => Err(Unread::Failed),
            ReadStop::Short { at, size } => Err(Unread::Short { at, size }),
        },
    }
}

/// Writes a whole file, and closes it. `Failed` is said of the opening, a write or the closing.
pub fn write_whole<M: Media>(
    alloc: Global,
    media: &mut M,
    name: &str,
    bytes: &[u8],
) -> Result<(), Refused>
    ensures goes_on { GoesOn (M.outside media.old) (M.outside media.new) }
    ensures others { IsTrue (M.outside media.old).tells → SameBut name.now (M.outside media.old) (M.outside media.new) }
    ensures held { IsTrue (M.outside media.old).tells → OnOk result ((M.outside media.new).file name.now ≡ Some bytes.now) }
    ensures front { IsTrue (M.outside media.old).tells →
        OnErr result (IsKeptOrFrontOf ((M.outside media.old).file name.now) ((M.outside media.new).file name.now) bytes.now) }
    ensures reason { IfErr result (HasWriteReason name.now (M.outside media.old) (M.outside media.new)) }
    ensures absences { IsFalse ((M.outside media.old).may_refuse name.now) → (M.outside media.new).absences ≡ (M.outside media.old).absences }
    ensures write_stays { result ≢ Err Refused.Failed → (M.outside media.new).write_faults ≡ (M.outside media.old).write_faults }
    ensures absences_stay { result ≢ Err Refused.Absent → (M.outside media.new).absences ≡ (M.outside media.old).absences }
    ensures read_faults { (M.outside media.new).read_faults ≡ (M.outside media.old).read_faults }
    ensures failed_reads { (M.outside media.new).failed_reads ≡ (M.outside media.old).failed_reads }
    ensures asked { result ≢ Err Refused.OutOfMemory → (M.outside media.new).openings ≡ with_name name.now 1 (M.outside media.old).openings }
    ensures failed_names { IsTrue (M.outside media.old).tells →
        (times : ℕ) × ((M.outside media.new).failed_writes ≡ with_name name.now times (M.outside media.old).failed_writes) }
{
    let mut sink = media.sink(alloc, name)?;
    let written = write_all(&mut sink, bytes);
    let closed = media.close_sink(sink);
    match written {
        Err(_) => Err(Refused::Failed),
        Ok(()) => match closed {
            Ok(()) => Ok(()),
            Err(_) => Err(Refused::Failed),
        },
    }
}
