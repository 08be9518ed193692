//! A file of the host as a sink with a buffer, and the flush that ends its writing.

ghost use Rattle.std.specs.Io.Buffered.{writer_contents, writer_buffer};
ghost use Rattle.std.specs.Io.KnownBytes.{Keeps, WriteAppends, append_known};
ghost use Rattle.std.specs.Io.{WritesAtMost};
ghost use Rattle.std.specs.Prelude.{◌≡◌, ◌<◌, [], length, take, IfOk, OnOk, OnErr, option_map};
ghost use Rattle.outside_io.specs.Causes.{HasCause};
ghost use Rattle.outside_io.specs.Writings.{after};

use crate::FileId;
use crate::retry::{TRIES, write_some};
use outside_io::{Failed, Sink};
use std::io::{self, BufWriter, ErrorKind, Write};

/// A file that is written. Bytes are kept back until there are enough of them, or the file is closed.
#[derive(Drop)]
pub struct HostFile<F: Write + Drop> {
    file: BufWriter<F>,
    id: FileId,
    pub(crate) name: String,
    pub(crate) faults: u64,
    /// Why the first call that failed did so.
    pub(crate) why: Option<io::Error>,
}

impl<F: Write + Drop> HostFile<F> {
    ghost use Rattle.outside_host.specs.Adapters.{file_writer};

    pub(crate) fn new(file: BufWriter<F>, id: FileId, name: String) -> HostFile<F>
        ensures file { file_writer result ≡ file }
        ensures id { result.id ≡ id }
        ensures faults { result.faults ≡ 0 }
    {
        HostFile {
            file,
            id,
            name,
            faults: 0,
            why: None,
        }
    }

    /// Which file it is.
    pub fn id(&self) -> FileId
        ensures { result ≡ self.now.id }
    {
        self.id
    }

    /// Writes what was kept back, and again after each interruption.
    pub(crate) fn finish(&mut self) -> io::Result<()>
        ensures kept { Keeps (writer_contents F.contents (file_writer self.old)) (writer_contents F.contents (file_writer self.new)) }
        ensures empty { OnOk result (writer_buffer (file_writer self.new) ≡ []) }
        ensures faults { self.new.faults ≡ self.old.faults }
    {
        'again: for _ in 0..TRIES {
            match self.file.flush() {
                Ok(()) => return Ok(()),
                Err(error) => {
                    if error.kind() != ErrorKind::Interrupted {
                        return Err(error);
                    }
                }
            }
        }
        Err(ErrorKind::Interrupted.into())
    }
}

impl<F: Write + Drop> Sink for HostFile<F> {
    ghost use Rattle.outside_host.specs.Adapters.{file_writer, unnamed, untold, unwatched};

    ghost told = { λ s. untold };

    ghost name = { λ s. unnamed };

    ghost faults = { λ s. s.faults };

    ghost writing = { λ s. unwatched };

    fn faults(&self) -> u64 {
        self.faults
    }

    fn write(&mut self, piece: &[u8]) -> Result<usize, Failed>
        requires { 0 < length piece.now }
        ensures bound { WritesAtMost result piece.now }
        ensures some { IfOk result (λ count. 0 < count) }
        ensures taken { IfOk result (λ count. untold ≡ append_known untold (take count piece.now)) }
        ensures kept { OnErr result (untold ≡ untold) }
        ensures name { unnamed ≡ unnamed }
        ensures cause { HasCause self.old.faults self.new.faults result }
        ensures writing { unwatched ≡ option_map (after result) unwatched }
        ensures written { WriteAppends (writer_contents F.contents (file_writer self.old)) (writer_contents F.contents (file_writer self.new)) result piece.now }
    {
        match write_some(&mut self.file, piece) {
            Ok(count) => Ok(count),
            Err(error) => {
                self.faults = self.faults.saturating_add(1);
                self.why = Some(self.why.unwrap_or(error));
                Err(Failed)
            }
        }
    }
}
