//! The part of a WAV sink: its file comes and goes, and a step's frames are written to it.

ghost use Rattle.std.specs.Prelude.{◌≡◌, ◌*◌, ◌≤◌, true, false, IfOk, None, Some, option_copied, option_map};
ghost use Rattle.std.specs.Option.{ForSome};
ghost use Rattle.omx_types.specs.Formats.{IsWithinLimits, frame_bytes_of};
ghost use Rattle.audio_parts.specs.Causes.{WriteCause};
ghost use Rattle.audio_parts.specs.FileParts.{sink_terms, writing_of};
ghost use Rattle.audio_parts.specs.Objects.{BothOrNone, OnBoth, SinkShows, SinkStays, StaysUnfailed, WrittenStays};
ghost use Rattle.audio_parts.specs.Ready.{IsReady};
ghost use Rattle.audio_parts.specs.Registers.{front_of};
ghost use Rattle.part_forms.specs.Sinking.{sinking, sink_sizes, writes_of};

use crate::OutOfMemory;
use crate::register::Register;
use crate::sink_file::SinkFile;
use omx_types::{Format, PartFault};
use outside_io::Sink;
use part_api::Part;
use std::alloc::Global;

/// Writes a WAV file of the planned frames, where it has a file.
#[derive(Drop)]
pub struct WavSink<K: Sink> {
    file: Option<SinkFile<K>>,
    /// The format of its input.
    format: Format,
    register: Register,
    /// The frames of the step, and their bytes.
    frames: u32,
    length: usize,
    /// They are still to be written.
    due: bool,
    /// A step answered a fault.
    failed: bool,
    ghost lawful: { IsWithinLimits format },
    ghost whole: { length ≡ frames * frame_bytes_of format },
    ghost small: { length ≤ 8192 },
    ghost unfailed: { due ≡ true → failed ≡ false },
    ghost agrees: { due ≡ true → ForSome file (λ it. it.planned * frame_bytes_of format ≤ 134217728) },
}

impl<K: Sink> WavSink<K> {
    /// A sink without a file.
    pub(crate) fn new(alloc: Global, format: Format) -> Result<WavSink<K>, OutOfMemory>
        requires { IsWithinLimits format }
        ensures file { IfOk result (λ part. part.file ≡ None) }
        ensures format { IfOk result (λ part. part.format ≡ format) }
        ensures failed { IfOk result (λ part. part.failed ≡ false) }
    {
        let register = Register::new(alloc)?;
        Ok(WavSink {
            file: None,
            format,
            register,
            frames: 0,
            length: 0,
            due: false,
            failed: false,
        })
    }

    /// Gives up a step that was begun.
    fn give_up(&mut self)
        ensures frames { self.new.frames ≡ 0 }
        ensures due { self.new.due ≡ false }
        ensures file { self.new.file ≡ self.old.file }
        ensures format { self.new.format ≡ self.old.format }
        ensures failed { self.new.failed ≡ self.old.failed }
        ensures length { self.new.length ≡ 0 }
    {
        self.due = false;
        self.frames = 0;
        self.length = 0;
    }

    /// Sets the format of its input. A step that was begun is given up.
    pub(crate) fn set_format(&mut self, format: Format)
        requires { IsWithinLimits format }
        ensures format { self.new.format ≡ format }
        ensures file { self.new.file ≡ self.old.file }
        ensures failed { self.new.failed ≡ self.old.failed }
        ensures frames { self.new.frames ≡ 0 }
        ensures due { self.new.due ≡ false }
    {
        self.give_up();
        self.format = format;
    }

    /// Gives it a file that takes so many frames. A step that was begun is given up.
    pub(crate) fn attach(&mut self, sink: K, planned: u64)
        requires { self.old.file ≡ None }
        ensures file { self.new.file ≡ Some (record { sink = sink; planned = planned; left = planned; headed = false }) }
        ensures format { self.new.format ≡ self.old.format }
        ensures failed { self.new.failed ≡ self.old.failed }
        ensures frames { self.new.frames ≡ 0 }
        ensures due { self.new.due ≡ false }
    {
        self.give_up();
        match self.file.replace(SinkFile::new(sink, planned)) {
            None => {}
            Some(_) => unreachable!(),
        }
    }

    /// Takes its file away. A step that was begun is given up.
    pub(crate) fn detach(&mut self) -> Option<SinkFile<K>>
        ensures value { result ≡ self.old.file }
        ensures file { self.new.file ≡ None }
        ensures format { self.new.format ≡ self.old.format }
        ensures failed { self.new.failed ≡ self.old.failed }
    {
        self.give_up();
        self.file.take()
    }

    /// The bytes of a frame of its port.
    pub(crate) fn frame(&self) -> usize
        ensures { result ≡ frame_bytes_of self.now.format }
    {
        self.format.frame_bytes() as usize
    }

    /// The sink that it writes to.
    pub(crate) fn sink(&self) -> Option<&K>
        ensures { option_copied result ≡ option_map (λ it. it.sink) self.now.file }
    {
        match &self.file {
            Some(file) => Some(&file.sink),
            None => None,
        }
    }

    /// Its file, at its end.
    pub(crate) fn into_file(self) -> Option<SinkFile<K>>
        ensures { result ≡ self.file }
    {
        let WavSink {
            file,
            format: _,
            register: _,
            frames: _,
            length: _,
            due: _,
            failed: _,
        } = self;
        file
    }
}

impl<K: Sink> Part for WavSink<K> {
    ghost shape = { λ part. sinking part.format };

    ghost sizes = { λ part. sink_sizes part.frames part.length };

    ghost carries = { λ part incoming. front_of part.register.silent part.length part.register.bytes.items ≡ incoming.input 0 };

    ghost terms = { λ part. sink_terms part.format part.file };

    ghost failed = { λ part. part.failed };

    ghost is_ready = { λ part. IsReady (sink_terms part.format part.file) part.failed };

    ghost can_take = { λ part input. input ≡ 0 };

    // It has no output, as `AnyPart` says; a call for one is harmless.
    ghost can_put = { λ part output. Unit {0} };

    ghost can_step = { λ part. part.due ≡ true };

    ghost rest = { λ part. None };

    ghost left = { λ part. None };

    ghost kept = { λ part. elim part.file [ Some it ↦ K.told it.sink | None ↦ None ] };

    ghost writing = { λ part. writing_of K.name part.format part.frames part.due part.file };

    ghost writes = { λ part incoming. writes_of (writing_of K.name part.format part.frames part.due part.file) (incoming.input 0) };

    ghost has_cause = { λ old new. WriteCause (λ it. K.faults it.sink) old.file new.file };

    ghost keeps = { λ old new. StaysUnfailed old.failed new.failed × BothOrNone (WrittenStays (SinkStays K.name K.faults)) old.file new.file };

    ghost shows = { λ old new fault. (old.failed ≡ false) × OnBoth (λ before now. SinkShows K.faults fault before.sink now.sink) old.file new.file };

    fn begin(&mut self, frames: u32) {
        self.frames = frames;
        self.length = (frames * self.format.frame_bytes()) as usize;
        self.due = true;
        self.register.begin();
    }

    fn take(&mut self, _input: u32, piece: &[u8]) {
        self.register.set(piece, self.length);
    }

    fn step(&mut self) -> Option<PartFault> {
        let Some(file) = &mut self.file else {
            self.due = false;
            return None;
        };
        self.register.settle(self.length);
        match file.write(
            self.format,
            &self.register.bytes[..self.length],
            self.frames,
        ) {
            Ok(()) => {
                self.due = false;
                None
            }
            Err(fault) => {
                self.due = false;
                self.failed = true;
                Some(fault)
            }
        }
    }

    fn put(&mut self, _output: u32, piece: &mut [u8]) {
        self.register.settle(self.length);
        piece.copy_from_slice(&self.register.bytes[..self.length]);
    }

    fn joins(&self) {}
}
