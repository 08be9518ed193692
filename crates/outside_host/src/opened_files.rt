//! The identity of the host's files, and the set of those that were opened.

ghost use Rattle.std.specs.Prelude.{◌≡◌, [], false, IfOk, OnOk, OnErr, IsTrue, IsErrOf};

use outside_io::{OutOfMemory, Refused};
use std::alloc::Global;
use std::fs::Metadata;
use std::os::unix::fs::MetadataExt;

/// Which file of the host it is, under whatever name: the links to one file share its device and its inode.
#[derive(Clone, Copy, PartialEq, Eq)]
pub struct FileId {
    device: u64,
    inode: u64,
}

impl FileId {
    pub(crate) fn of(data: &Metadata) -> FileId {
        FileId {
            device: data.dev(),
            inode: data.ino(),
        }
    }
}

/// That this file is none that was opened before. `OpenedFiles::add_other` alone makes one, so whoever has it has compared.
#[derive(Drop)]
pub struct OtherFile {
    id: FileId,
}

/// The files that were opened, each once. A file that was closed again stays among them.
#[derive(Drop)]
pub struct OpenedFiles {
    ids: Vec<FileId>,
}

impl OpenedFiles {
    ghost use Rattle.outside_host.specs.Opened.{has_file, StayOpened};

    pub(crate) fn new(alloc: Global) -> OpenedFiles
        ensures { result.ids.items ≡ [] }
    {
        OpenedFiles {
            ids: Vec::new(alloc),
        }
    }

    fn has(&self, id: FileId) -> bool
        ensures { result ≡ has_file id self.now.ids.items }
    {
        self.ids.contains(&id)
    }

    /// Remembers a file that is read.
    pub(crate) fn add(&mut self, id: FileId) -> Result<(), OutOfMemory>
        ensures added { OnOk result (IsTrue (has_file id self.new.ids.items)) }
        ensures stay { StayOpened self.old.ids.items self.new.ids.items }
        ensures kept { OnErr result (self.new.ids.items ≡ self.old.ids.items) }
    {
        if self.has(id) {
            return Ok(());
        }
        self.ids.push(id)?;
        Ok(())
    }

    /// Remembers a file that is to be written. One that is remembered is refused as failed.
    pub(crate) fn add_other(&mut self, id: FileId) -> Result<OtherFile, Refused>
        ensures id { IfOk result (λ other. other.id ≡ id) }
        ensures other { OnOk result (has_file id self.old.ids.items ≡ false) }
        ensures added { OnOk result (IsTrue (has_file id self.new.ids.items)) }
        ensures failed { IsErrOf result Refused.Failed → IsTrue (has_file id self.old.ids.items) }
        ensures refused { IsTrue (has_file id self.old.ids.items) → IsErrOf result Refused.Failed }
        ensures stay { StayOpened self.old.ids.items self.new.ids.items }
        ensures kept { OnErr result (self.new.ids.items ≡ self.old.ids.items) }
    {
        if self.has(id) {
            return Err(Refused::Failed);
        }
        match self.ids.push(id) {
            Ok(()) => Ok(OtherFile { id }),
            Err(_) => Err(Refused::OutOfMemory),
        }
    }
}
