//! The host's file system as a media: files are opened and closed, and faults and absences are counted.

ghost use Rattle.std.specs.Fs.{asks_append, asks_create, asks_create_new, asks_truncate, asks_write, metadata_len};
ghost use Rattle.std.specs.IoError.{error_kind};
ghost use Rattle.std.specs.Prelude.{◌≡◌, ◌≢◌, ◌↔◌, ◌≤◌, None, true, false, [], length, IfOk, OnOk, OnErr, IsErrOf, IsTrue, IsFalse, IsSome, Some};
ghost use Rattle.outside_io.specs.Causes.{Rose, sum_of_counts};
ghost use Rattle.outside_io.specs.Files.{GoesOn, SameBut, IsFrontOf, failed_with, with_name};
ghost use Rattle.outside_io.specs.Moves.{WhereTold};
ghost use Rattle.outside_host.specs.Opened.{has_file, StayOpened};

use crate::opened_files::{OpenedFiles, OtherFile};
use crate::{FileId, HostFile, HostSource};
use outside_io::{Failed, Media, OutOfMemory, Refused};
use std::alloc::Global;
use std::fs::{self, File, Metadata, OpenOptions};
use std::io::{self, BufReader, BufWriter, Eprint, ErrorKind};
use std::os::unix::fs::FileTypeExt;
use std::rt::Files;

/// How many bytes of a file are kept at once.
const KEPT: usize = 65_536;

/// Where the standard output is found by name.
const OUTPUT: &str = "/proc/self/fd/1";

const ABSENT: &str = "absent";

const READ_FAULT: &str = "read fault";

const WRITE_FAULT: &str = "write fault";

/// The host's files by name. What isn't there, or has no folder to be made in, is absent; each other failure to open is a
/// fault. A sink whose file it has opened before, under whatever name, is such a failure, and its bytes stay. Each failure is a
/// line on the standard error, with the file's name and the host's reason; a file's first alone.
#[derive(Drop)]
pub struct HostMedia<R> {
    files: R,
    opened: OpenedFiles,
    read_faults: u64,
    write_faults: u64,
    absences: u64,
}

impl<R> HostMedia<R> {
    ghost use Rattle.outside_host.specs.Adapters.{HasNoCount, opened_of};

    /// Files of the host, none of which was opened yet.
    pub fn new(alloc: Global, files: R) -> HostMedia<R>
        ensures counts { HasNoCount result }
        ensures opened { opened_of result ≡ [] }
    {
        HostMedia {
            files,
            opened: OpenedFiles::new(alloc),
            read_faults: 0,
            write_faults: 0,
            absences: 0,
        }
    }
}

impl<R: Files<File = File>> HostMedia<R> {
    ghost use Rattle.outside_host.specs.Adapters.{host_outside, opened_of};

    /// Takes the file of the standard output as one that was opened, so that no sink is written over it. A device can't be
    /// written over, and what has no name isn't found.
    pub fn spare_output(&mut self) -> Result<(), OutOfMemory>
        ensures outside { host_outside self.new ≡ host_outside self.old }
        ensures stay { StayOpened (opened_of self.old) (opened_of self.new) }
    {
        match fs::metadata(&self.files, OUTPUT) {
            Ok(data) => {
                if is_device(&data) {
                    Ok(())
                } else {
                    self.opened.add(FileId::of(&data))
                }
            }
            Err(_error) => Ok(()),
        }
    }
}

fn is_device(data: &Metadata) -> bool {
    let kind = data.file_type();
    kind.is_char_device() || kind.is_block_device()
}

/// A line on the standard error. Where it can't be printed it is left out.
fn tell<R: Eprint>(files: &R, fault: &str, name: &str, why: io::Error) {
    let _printed = eprintln!(files; "{fault}: {name}: {why}");
}

/// What the host's error is for one who opens, which is told.
fn refusal<R: Eprint>(files: &R, fault: &str, name: &str, why: io::Error) -> Refused
    ensures absent { (result ≡ Refused.Absent) ↔ (error_kind why ≡ ErrorKind.NotFound) }
    ensures known { result ≢ Refused.OutOfMemory }
{
    match why.kind() {
        ErrorKind::NotFound => {
            tell(files, ABSENT, name, why);
            Refused::Absent
        }
        _ => {
            tell(files, fault, name, why);
            Refused::Failed
        }
    }
}

/// A file that is opened to be read, and what the host knows of it.
fn found<R: Files<File = File>>(files: &R, name: &str) -> io::Result<(File, Metadata)> {
    let file = fs::open(files, name)?;
    let data = file.metadata()?;
    Ok((file, data))
}

/// How a file is opened to be written: it is made where it wasn't there, and keeps its bytes.
fn sink_options() -> OpenOptions
    ensures writes { asks_write result ≡ true }
    ensures made { asks_create result ≡ true }
    ensures or_found { asks_create_new result ≡ false }
    ensures kept { asks_truncate result ≡ false }
    ensures from_start { asks_append result ≡ false }
{
    let mut how = OpenOptions::new();
    how.write(true).create(true);
    how
}

/// A file that is opened to be written, and what the host knows of it.
fn made<R: Files<File = File>>(files: &R, name: &str) -> io::Result<(File, Metadata)> {
    let file = sink_options().open(files, name)?;
    let data = file.metadata()?;
    Ok((file, data))
}

/// The source of an open file, which is remembered. It has the size that the host knows.
fn source_of(
    alloc: Global,
    opened: &mut OpenedFiles,
    file: File,
    metadata: &Metadata,
    name: &str,
) -> Result<HostSource<File>, Refused>
    ensures size { IfOk result (λ src. src.size ≡ metadata_len metadata.now) }
    ensures offset { IfOk result (λ src. src.offset ≡ 0) }
    ensures faults { IfOk result (λ src. src.faults ≡ 0) }
    ensures opened { IfOk result (λ src. IsTrue (has_file src.id opened.new.ids.items)) }
    ensures stay { StayOpened opened.old.ids.items opened.new.ids.items }
{
    let id = FileId::of(metadata);
    let Ok(name) = String::from_str(alloc, name) else {
        return Err(Refused::OutOfMemory);
    };
    match BufReader::with_capacity(alloc, KEPT, file) {
        Ok(file) => match opened.add(id) {
            Ok(()) => Ok(HostSource::new(file, id, metadata.len(), name)),
            Err(_) => Err(Refused::OutOfMemory),
        },
        Err(_) => Err(Refused::OutOfMemory),
    }
}

/// Opens a file to be read, and remembers it.
fn open_source<R: Files<File = File> + Eprint>(
    alloc: Global,
    files: &R,
    opened: &mut OpenedFiles,
    name: &str,
) -> Result<HostSource<File>, Refused>
    ensures offset { IfOk result (λ src. src.offset ≡ 0) }
    ensures faults { IfOk result (λ src. src.faults ≡ 0) }
    ensures opened { IfOk result (λ src. IsTrue (has_file src.id opened.new.ids.items)) }
    ensures stay { StayOpened opened.old.ids.items opened.new.ids.items }
{
    let (file, data) = match found(files, name) {
        Ok(found) => found,
        Err(why) => return Err(refusal(files, READ_FAULT, name, why)),
    };
    source_of(alloc, opened, file, &data, name)
}

/// Opens a file to be written that wasn't opened before, remembers it, and only then empties it.
fn open_sink<R: Files<File = File> + Eprint>(
    alloc: Global,
    files: &R,
    opened: &mut OpenedFiles,
    name: &str,
) -> Result<HostFile<File>, Refused>
    ensures other { IfOk result (λ snk. has_file snk.id opened.old.ids.items ≡ false) }
    ensures faults { IfOk result (λ snk. snk.faults ≡ 0) }
    ensures opened { IfOk result (λ snk. IsTrue (has_file snk.id opened.new.ids.items)) }
    ensures stay { StayOpened opened.old.ids.items opened.new.ids.items }
{
    let (file, data) = match made(files, name) {
        Ok(made) => made,
        Err(why) => return Err(refusal(files, WRITE_FAULT, name, why)),
    };
    let id = FileId::of(&data);
    let Ok(its_name) = String::from_str(alloc, name) else {
        return Err(Refused::OutOfMemory);
    };
    let Ok(file) = BufWriter::with_capacity(alloc, KEPT, file) else {
        return Err(Refused::OutOfMemory);
    };
    let other = match opened.add_other(id) {
        Ok(other) => other,
        Err(Refused::Failed) => {
            let why = io::Error::other("it is open already");
            tell(files, WRITE_FAULT, name, why);
            return Err(Refused::Failed);
        }
        Err(refused) => return Err(refused),
    };
    match empty(file.get_ref(), id, &data, other) {
        Ok(()) => Ok(HostFile::new(file, id, its_name)),
        Err(why) => Err(refusal(files, WRITE_FAULT, name, why)),
    }
}

/// Empties a file that was compared with those opened before. A device or a pipe has no length to be cut.
fn empty(file: &File, id: FileId, metadata: &Metadata, other: OtherFile) -> io::Result<()>
    requires compared { other.id ≡ id }
{
    // Only the requirement uses it: no file is emptied that wasn't compared.
    let _compared = other;
    if metadata.is_file() {
        file.set_len(0)
    } else {
        Ok(())
    }
}

impl<R: Files<File = File> + Eprint> Media for HostMedia<R> {
    ghost use Rattle.outside_host.specs.Adapters.{endless, host_outside, opened_of, unnamed, untold};

    type Src = HostSource<File>;

    type Snk = HostFile<File>;

    ghost outside = { host_outside };

    fn read_faults(&self) -> u64 {
        self.read_faults
    }

    fn write_faults(&self) -> u64 {
        self.write_faults
    }

    fn absences(&self) -> u64 {
        self.absences
    }

    fn source(&mut self, alloc: Global, name: &str) -> Result<HostSource<File>, Refused>
        ensures goes_on { GoesOn (host_outside self.old) (host_outside self.new) }
        ensures files { (host_outside self.new).file ≡ (host_outside self.old).file }
        ensures told { IfOk result (λ src. untold ≡ (host_outside self.old).file name.now) }
        ensures there { IsTrue (host_outside self.old).tells → OnOk result (IsSome ((host_outside self.old).file name.now)) }
        ensures name { IsTrue (host_outside self.old).tells → IfOk result (λ src. unnamed ≡ name.now) }
        ensures size { WhereTold ((host_outside self.old).file name.now) (λ bytes. IfOk result (λ src. src.size ≡ length bytes)) }
        ensures offset { IfOk result (λ src. src.offset ≡ 0) }
        ensures ends { IfOk result (λ src. endless ≡ (host_outside self.old).ends name.now) }
        ensures absent { IsErrOf result Refused.Absent → Rose (host_outside self.old).absences (host_outside self.new).absences }
        ensures absent_name { IsErrOf result Refused.Absent → (host_outside self.old).file name.now ≡ None }
        ensures absences { IsSome ((host_outside self.old).file name.now) → (host_outside self.new).absences ≡ (host_outside self.old).absences }
        ensures failed { IsErrOf result Refused.Failed → Rose (host_outside self.old).read_faults (host_outside self.new).read_faults }
        ensures reads_stay { ¬ (IsErrOf result Refused.Failed) → (host_outside self.new).read_faults ≡ (host_outside self.old).read_faults }
        ensures absences_stay { ¬ (IsErrOf result Refused.Absent) → (host_outside self.new).absences ≡ (host_outside self.old).absences }
        ensures unfailed { IfOk result (λ src. src.faults ≡ 0) }
        ensures asked { ¬ (IsErrOf result Refused.OutOfMemory) → (host_outside self.new).openings ≡ with_name name.now 1 (host_outside self.old).openings }
        ensures failed_name { IsErrOf result Refused.Failed → (host_outside self.new).failed_reads ≡ with_name name.now 1 (host_outside self.old).failed_reads }
        ensures none_failed { ¬ (IsErrOf result Refused.Failed) → (host_outside self.new).failed_reads ≡ (host_outside self.old).failed_reads }
        ensures failed_writes { (host_outside self.new).failed_writes ≡ (host_outside self.old).failed_writes }
        ensures write_faults { (host_outside self.new).write_faults ≡ (host_outside self.old).write_faults }
        ensures opened { IfOk result (λ src. IsTrue (has_file src.id (opened_of self.new))) }
        ensures stay { StayOpened (opened_of self.old) (opened_of self.new) }
    {
        match open_source(alloc, &self.files, &mut self.opened, name) {
            Ok(source) => Ok(source),
            Err(Refused::Absent) => {
                self.absences = self.absences.saturating_add(1);
                Err(Refused::Absent)
            }
            Err(Refused::Failed) => {
                self.read_faults = self.read_faults.saturating_add(1);
                Err(Refused::Failed)
            }
            Err(Refused::OutOfMemory) => Err(Refused::OutOfMemory),
        }
    }

    fn sink(&mut self, alloc: Global, name: &str) -> Result<HostFile<File>, Refused>
        ensures goes_on { GoesOn (host_outside self.old) (host_outside self.new) }
        ensures files { (host_outside self.new).file ≡ (host_outside self.old).file }
        ensures told { IsTrue (host_outside self.old).tells → IfOk result (λ snk. untold ≡ Some []) }
        ensures name { IsTrue (host_outside self.old).tells → IfOk result (λ snk. unnamed ≡ name.now) }
        ensures absent { IsErrOf result Refused.Absent → Rose (host_outside self.old).absences (host_outside self.new).absences }
        ensures absent_name { IsErrOf result Refused.Absent → IsTrue ((host_outside self.old).may_refuse name.now) }
        ensures absences { IsFalse ((host_outside self.old).may_refuse name.now) → (host_outside self.new).absences ≡ (host_outside self.old).absences }
        ensures failed { IsErrOf result Refused.Failed → Rose (host_outside self.old).write_faults (host_outside self.new).write_faults }
        ensures writes_stand { ¬ (IsErrOf result Refused.Failed) → (host_outside self.new).write_faults ≡ (host_outside self.old).write_faults }
        ensures absences_stay { ¬ (IsErrOf result Refused.Absent) → (host_outside self.new).absences ≡ (host_outside self.old).absences }
        ensures unfailed { IfOk result (λ snk. snk.faults ≡ 0) }
        ensures asked { ¬ (IsErrOf result Refused.OutOfMemory) → (host_outside self.new).openings ≡ with_name name.now 1 (host_outside self.old).openings }
        ensures failed_name { IsErrOf result Refused.Failed → (host_outside self.new).failed_writes ≡ with_name name.now 1 (host_outside self.old).failed_writes }
        ensures none_failed { ¬ (IsErrOf result Refused.Failed) → (host_outside self.new).failed_writes ≡ (host_outside self.old).failed_writes }
        ensures failed_reads { (host_outside self.new).failed_reads ≡ (host_outside self.old).failed_reads }
        ensures read_faults { (host_outside self.new).read_faults ≡ (host_outside self.old).read_faults }
        ensures other { IfOk result (λ snk. has_file snk.id (opened_of self.old) ≡ false) }
        ensures opened { IfOk result (λ snk. IsTrue (has_file snk.id (opened_of self.new))) }
        ensures stay { StayOpened (opened_of self.old) (opened_of self.new) }
    {
        match open_sink(alloc, &self.files, &mut self.opened, name) {
            Ok(sink) => Ok(sink),
            Err(Refused::Absent) => {
                self.absences = self.absences.saturating_add(1);
                Err(Refused::Absent)
            }
            Err(Refused::Failed) => {
                self.write_faults = self.write_faults.saturating_add(1);
                Err(Refused::Failed)
            }
            Err(Refused::OutOfMemory) => Err(Refused::OutOfMemory),
        }
    }

    fn close_source(&mut self, src: HostSource<File>)
        ensures goes_on { GoesOn (host_outside self.old) (host_outside self.new) }
        ensures files { (host_outside self.new).file ≡ (host_outside self.old).file }
        ensures absences { (host_outside self.new).absences ≡ (host_outside self.old).absences }
        ensures write_faults { (host_outside self.new).write_faults ≡ (host_outside self.old).write_faults }
        ensures openings { (host_outside self.new).openings ≡ (host_outside self.old).openings }
        ensures failed_names { (host_outside self.new).failed_reads ≡ with_name unnamed src.faults (host_outside self.old).failed_reads }
        ensures failed_writes { (host_outside self.new).failed_writes ≡ (host_outside self.old).failed_writes }
        ensures added { (host_outside self.new).read_faults ≡ sum_of_counts (host_outside self.old).read_faults src.faults }
        ensures stay { opened_of self.new ≡ opened_of self.old }
    {
        self.read_faults = self.read_faults.saturating_add(src.faults);
        if let Some(why) = src.why {
            tell(&self.files, READ_FAULT, src.name.as_str(), why);
        }
    }

    fn close_sink(&mut self, snk: HostFile<File>) -> Result<(), Failed>
        ensures goes_on { GoesOn (host_outside self.old) (host_outside self.new) }
        ensures others { SameBut unnamed (host_outside self.old) (host_outside self.new) }
        ensures held { OnOk result ((host_outside self.new).file unnamed ≡ untold) }
        ensures front { OnErr result (WhereTold untold (IsFrontOf ((host_outside self.new).file unnamed))) }
        ensures absences { (host_outside self.new).absences ≡ (host_outside self.old).absences }
        ensures read_faults { (host_outside self.new).read_faults ≡ (host_outside self.old).read_faults }
        ensures added { sum_of_counts (host_outside self.old).write_faults snk.faults ≤ (host_outside self.new).write_faults }
        ensures closed { OnOk result ((host_outside self.new).write_faults ≡ sum_of_counts (host_outside self.old).write_faults snk.faults) }
        ensures openings { (host_outside self.new).openings ≡ (host_outside self.old).openings }
        ensures failed_reads { (host_outside self.new).failed_reads ≡ (host_outside self.old).failed_reads }
        ensures failed_names { (host_outside self.new).failed_writes ≡ with_name unnamed (failed_with snk.faults result) (host_outside self.old).failed_writes }
        ensures failed { OnErr result (Rose (sum_of_counts (host_outside self.old).write_faults snk.faults) (host_outside self.new).write_faults) }
        ensures stay { opened_of self.new ≡ opened_of self.old }
    {
        let mut snk = snk;
        self.write_faults = self.write_faults.saturating_add(snk.faults);
        match snk.finish() {
            Ok(()) => {
                if let Some(why) = snk.why {
                    tell(&self.files, WRITE_FAULT, snk.name.as_str(), why);
                }
                Ok(())
            }
            Err(why) => {
                self.write_faults = self.write_faults.saturating_add(1);
                tell(
                    &self.files,
                    WRITE_FAULT,
                    snk.name.as_str(),
                    snk.why.unwrap_or(why),
                );
                Err(Failed)
            }
        }
    }
}
