//! A file of the host as a source: reads and seeks within the size that it had at its opening.

ghost use Rattle.std.specs.Io.Buffered.{reader_position, reader_remaining};
ghost use Rattle.std.specs.Io.KnownBytes.{Consumes, IsAtEnd, Keeps};
ghost use Rattle.std.specs.Io.Seek.{MovesTo};
ghost use Rattle.std.specs.Io.{ReadsAtMost};
ghost use Rattle.std.specs.Prelude.{◌≡◌, ◌+◌, ◌<◌, ◌≤◌, min, max, length, take, drop, IfOk, OnOk, OnErr};
ghost use Rattle.outside_io.specs.Asking.{asked_up_to};
ghost use Rattle.outside_io.specs.Causes.{HasCause};
ghost use Rattle.outside_io.specs.Moves.{WhereTold};

use crate::FileId;
use crate::retry::{read_some, seek};
use outside_io::{Failed, Source};
use std::io::{self, BufReader, Read, Seek};

/// A file that is read. Its size is that of its opening.
#[derive(Drop)]
pub struct HostSource<F> {
    file: BufReader<F>,
    id: FileId,
    size: u64,
    offset: u64,
    pub(crate) name: String,
    pub(crate) faults: u64,
    /// Why the first call that failed did so.
    pub(crate) why: Option<io::Error>,
    ghost within: { offset ≤ size },
}

impl<F> HostSource<F> {
    ghost use Rattle.outside_host.specs.Adapters.{source_reader};

    /// A file of this size that stands at its first byte.
    pub(crate) fn new(file: BufReader<F>, id: FileId, size: u64, name: String) -> HostSource<F>
        ensures file { source_reader result ≡ file }
        ensures id { result.id ≡ id }
        ensures size { result.size ≡ size }
        ensures offset { result.offset ≡ 0 }
        ensures faults { result.faults ≡ 0 }
    {
        HostSource {
            file,
            id,
            size,
            offset: 0,
            name,
            faults: 0,
            why: None,
        }
    }

    /// Which file it is.
    pub fn id(&self) -> FileId
        ensures { result ≡ self.now.id }
    {
        self.id
    }
}

impl<F: Read> HostSource<F> {
    ghost use Rattle.outside_host.specs.Adapters.{source_reader};

    /// Reads the next bytes of the file, and none behind its size.
    fn next(&mut self, buf: &mut [u8]) -> io::Result<usize>
        ensures bound { IfOk result (λ count. count ≤ length buf.new) }
        ensures within { IfOk result (λ count. self.old.offset + count ≤ self.old.size) }
        ensures size { self.new.size ≡ self.old.size }
        ensures offset { self.new.offset ≡ self.old.offset }
        ensures faults { self.new.faults ≡ self.old.faults }
        ensures given { IfOk result (λ count. Consumes (reader_remaining F.remaining (source_reader self.old))
            (reader_remaining F.remaining (source_reader self.new)) (take count buf.new)) }
        ensures end { IfOk result (λ count. count ≡ 0 → 0 < length buf.new → self.old.offset < self.old.size →
            IsAtEnd (reader_remaining F.remaining (source_reader self.new))) }
        ensures kept { OnErr result (Keeps (reader_remaining F.remaining (source_reader self.old))
            (reader_remaining F.remaining (source_reader self.new))) }
    {
        let left = self.size - self.offset;
        let mut most = buf.len();
        if left < most as u64 {
            most = left as usize;
        }
        read_some(&mut self.file, &mut buf[..most])
    }
}

impl<F: Read + Seek> Source for HostSource<F> {
    ghost use Rattle.outside_host.specs.Adapters.{endless, source_reader, unasked, unnamed, untold};

    ghost told = { λ s. untold };

    ghost name = { λ s. unnamed };

    ghost ends = { λ s. endless };

    ghost size = { λ s. s.size };

    ghost offset = { λ s. s.offset };

    ghost asked = { λ s. unasked };

    ghost faults = { λ s. s.faults };

    fn size(&self) -> u64 {
        self.size
    }

    fn offset(&self) -> u64 {
        self.offset
    }

    fn faults(&self) -> u64 {
        self.faults
    }

    fn read(&mut self, buf: &mut [u8]) -> Result<usize, Failed>
        requires { 0 < length buf.old }
        ensures bound { ReadsAtMost result buf.new }
        ensures told { untold ≡ untold }
        ensures name { unnamed ≡ unnamed }
        ensures ends { endless ≡ endless }
        ensures size { self.new.size ≡ self.old.size }
        ensures offset { IfOk result (λ count. self.new.offset ≡ self.old.offset + count) }
        ensures within { self.new.offset ≤ self.new.size }
        ensures bytes { WhereTold untold (λ bytes. IfOk result (λ count.
            take count buf.new ≡ take count (drop self.old.offset bytes))) }
        ensures gives { WhereTold endless (λ end. IfOk result (λ count.
            self.old.offset < min end self.old.size → 0 < count)) }
        ensures stops { WhereTold endless (λ end. OnOk result (self.new.offset ≤ max end self.old.offset)) }
        ensures asked { unasked ≡ asked_up_to unasked (self.old.offset + length buf.old) }
        ensures cause { HasCause self.old.faults self.new.faults result }
        ensures given { IfOk result (λ count. Consumes (reader_remaining F.remaining (source_reader self.old))
            (reader_remaining F.remaining (source_reader self.new)) (take count buf.new)) }
        ensures end { IfOk result (λ count. count ≡ 0 → self.old.offset < self.old.size →
            IsAtEnd (reader_remaining F.remaining (source_reader self.new))) }
        ensures lost { OnErr result (Keeps (reader_remaining F.remaining (source_reader self.old))
            (reader_remaining F.remaining (source_reader self.new))) }
    {
        match self.next(buf) {
            Ok(count) => {
                self.offset += count as u64;
                Ok(count)
            }
            Err(error) => {
                self.faults = self.faults.saturating_add(1);
                self.why = Some(self.why.unwrap_or(error));
                Err(Failed)
            }
        }
    }

    fn seek_to(&mut self, to: u64) -> Result<(), Failed>
        requires { to ≤ self.old.size }
        ensures told { untold ≡ untold }
        ensures name { unnamed ≡ unnamed }
        ensures ends { endless ≡ endless }
        ensures size { self.new.size ≡ self.old.size }
        ensures reached { OnOk result (self.new.offset ≡ to) }
        ensures within { self.new.offset ≤ self.new.size }
        ensures asked { unasked ≡ unasked }
        ensures cause { HasCause self.old.faults self.new.faults result }
        ensures moves { MovesTo (reader_position F.stream_position (source_reader self.old))
            (reader_position F.stream_position (source_reader self.new)) to result }
    {
        match seek(&mut self.file, to) {
            Ok(()) => {
                self.offset = to;
                Ok(())
            }
            Err(error) => {
                self.faults = self.faults.saturating_add(1);
                self.why = Some(self.why.unwrap_or(error));
                Err(Failed)
            }
        }
    }
}
