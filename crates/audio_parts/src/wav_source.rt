//! The part of a WAV source: its file comes and goes, and a step reads the next frames of it.

ghost use Rattle.std.specs.Prelude.{◌≡◌, ◌+◌, ◌*◌, ◌<◌, ◌≤◌, true, false, [], length, vec_len, option_map, IfOk, None, Some};
ghost use Rattle.std.specs.Option.{ForSome};
ghost use Rattle.omx_types.specs.Formats.{IsWithinLimits, frame_bytes_of};
ghost use Rattle.audio_parts.specs.Causes.{ReadCause};
ghost use Rattle.audio_parts.specs.FileParts.{source_terms};
ghost use Rattle.audio_parts.specs.Objects.{BothOrNone, OnBoth, ReadStays, SourceShows, SourceStays, StaysUnfailed};
ghost use Rattle.part_api.specs.Streams.{Incoming};
ghost use Rattle.part_forms.specs.Files.{sourcing, rest_of, none_left};
ghost use Rattle.audio_parts.specs.Ready.{IsReady};
ghost use Rattle.audio_parts.specs.Registers.{front_of};

use crate::OutOfMemory;
use crate::source_file::SourceFile;
use omx_types::{Format, PartFault};
use outside_io::Source;
use part_api::Part;
use std::alloc::Global;

/// The frames of a file, where it has one.
#[derive(Drop)]
pub struct WavSource<S: Source> {
    /// It tells its file's format while it runs.
    late: bool,
    file: Option<SourceFile<S>>,
    /// The format of its output.
    format: Format,
    register: Vec<u8>,
    /// The frames of the step, and their bytes.
    frames: u32,
    length: usize,
    /// They are still to be read.
    due: bool,
    /// A step answered a fault.
    failed: bool,
    ghost lawful: { IsWithinLimits format },
    ghost there: { ForSome file (λ it. it.next + it.left * frame_bytes_of it.format ≤ S.size it.source) },
    ghost room: { vec_len register ≡ 8192 },
    ghost whole: { length ≡ frames * frame_bytes_of format },
    ghost small: { length ≤ 8192 },
    ghost enough: { due ≡ true → frames ≤ none_left (option_map (λ it. it.left) file) },
    ghost unfailed: { due ≡ true → failed ≡ false },
    ghost agrees: { due ≡ true → ForSome file (λ it. it.format ≡ format) },
    ghost placed: { failed ≡ false → ForSome file (λ it. it.next ≡ S.offset it.source) },
}

impl<S: Source> WavSource<S> {
    /// A source without a file.
    pub(crate) fn new(
        alloc: Global,
        late: bool,
        format: Format,
    ) -> Result<WavSource<S>, OutOfMemory>
        requires { IsWithinLimits format }
        ensures late { IfOk result (λ part. part.late ≡ late) }
        ensures file { IfOk result (λ part. part.file ≡ None) }
        ensures format { IfOk result (λ part. part.format ≡ format) }
        ensures failed { IfOk result (λ part. part.failed ≡ false) }
    {
        let register = vec![in alloc; 0; 8192]?;
        Ok(WavSource {
            late,
            file: None,
            format,
            register,
            frames: 0,
            length: 0,
            due: false,
            failed: false,
        })
    }

    /// Gives up a step that was begun.
    fn give_up(&mut self)
        ensures due { self.new.due ≡ false }
        ensures frames { self.new.frames ≡ 0 }
        ensures length { self.new.length ≡ 0 }
        ensures file { self.new.file ≡ self.old.file }
        ensures late { self.new.late ≡ self.old.late }
        ensures format { self.new.format ≡ self.old.format }
        ensures failed { self.new.failed ≡ self.old.failed }
    {
        self.due = false;
        self.frames = 0;
        self.length = 0;
    }

    /// Sets the format of its output. A step that was begun is given up.
    pub(crate) fn set_format(&mut self, format: Format)
        requires { IsWithinLimits format }
        ensures late { self.new.late ≡ self.old.late }
        ensures format { self.new.format ≡ format }
        ensures file { self.new.file ≡ self.old.file }
        ensures failed { self.new.failed ≡ self.old.failed }
    {
        self.give_up();
        self.format = format;
    }

    /// Gives it a file, from where that stands. A step that was begun is given up.
    pub(crate) fn attach(&mut self, source: S, format: Format, frames: u64)
        requires free { self.old.file ≡ None }
        requires there { S.offset source + frames * frame_bytes_of format ≤ S.size source }
        ensures file { self.new.file ≡ Some (record { source = source; format = format; attached = frames; left = frames; next = S.offset source }) }
        ensures late { self.new.late ≡ self.old.late }
        ensures format { self.new.format ≡ self.old.format }
        ensures failed { self.new.failed ≡ self.old.failed }
    {
        self.give_up();
        match self.file.replace(SourceFile::new(source, format, frames)) {
            None => {}
            Some(_) => unreachable!(),
        }
    }

    /// Takes its file away. A step that was begun is given up.
    pub(crate) fn detach(&mut self) -> Option<SourceFile<S>>
        ensures value { result ≡ self.old.file }
        ensures file { self.new.file ≡ None }
        ensures late { self.new.late ≡ self.old.late }
        ensures format { self.new.format ≡ self.old.format }
        ensures failed { self.new.failed ≡ self.old.failed }
    {
        self.give_up();
        self.file.take()
    }

    /// The bytes of a frame of its port.
    pub(crate) fn frame(&self) -> usize
        ensures { result ≡ frame_bytes_of self.now.format }
    {
        self.format.frame_bytes() as usize
    }

    /// What the register carries of a step has its bytes. The call does nothing.
    pub(crate) fn reads_whole(&self)
        ensures { (incoming : Incoming) → ⟦<WavSource<S> as Part>⟧.carries self.now incoming → length incoming.file ≡ self.now.length }
    {
        // The proof learns from it what always holds of the register.
        let _ = &self.register;
    }

    /// Its file, at its end.
    pub(crate) fn into_file(self) -> Option<SourceFile<S>>
        ensures { result ≡ self.file }
    {
        let WavSource {
            late: _,
            file,
            format: _,
            register: _,
            frames: _,
            length: _,
            due: _,
            failed: _,
        } = self;
        file
    }

    /// The frames that it hasn't given yet.
    pub(crate) fn left(&self) -> u64
        ensures { result ≡ none_left (option_map (λ it. it.left) self.now.file) }
    {
        match &self.file {
            Some(file) => file.left,
            None => 0,
        }
    }
}

impl<S: Source> Part for WavSource<S> {
    ghost shape = { λ part. sourcing part.format };

    ghost sizes = { λ part. record { frames = part.frames; input = 0; output = part.length } };

    ghost carries = { λ part incoming. front_of part.due part.length part.register.items ≡ incoming.file };

    ghost terms = { λ part. source_terms part.late part.format part.file };

    ghost failed = { λ part. part.failed };

    ghost is_ready = { λ part. IsReady (source_terms part.late part.format part.file) part.failed };

    // It has no input, as `AnyPart` says; a call for one is harmless.
    ghost can_take = { λ part input. Unit {0} };

    ghost can_put = { λ part output. (output < 1) × (part.due ≡ false) × (part.failed ≡ false) };

    ghost can_step = { λ part. part.due ≡ true };

    ghost rest = { λ part. elim part.file [ Some it ↦ rest_of (S.told it.source) it.next (it.left * frame_bytes_of it.format) | None ↦ Some [] ] };

    ghost left = { λ part. Some (none_left (option_map (λ it. it.left) part.file)) };

    ghost kept = { λ part. None };

    ghost writing = { λ part. None };

    ghost writes = { λ part incoming. [] };

    ghost has_cause = { λ old new. ReadCause (λ it. S.size it.source) (λ it. S.ends it.source) (λ it. it.next) (λ it. S.faults it.source) old.file new.file };

    ghost keeps = { λ old new. StaysUnfailed old.failed new.failed × BothOrNone (ReadStays (SourceStays S.name S.size S.told S.ends S.offset S.faults new.failed)) old.file new.file };

    ghost shows = { λ old new fault. (old.failed ≡ false) × OnBoth (λ before now. SourceShows S.size S.ends S.offset S.faults fault before.source now.source) old.file new.file };

    fn begin(&mut self, frames: u32) {
        self.frames = frames;
        self.length = (frames * self.format.frame_bytes()) as usize;
        self.due = true;
    }

    fn take(&mut self, _input: u32, _piece: &[u8]) {}

    fn step(&mut self) -> Option<PartFault> {
        let Some(file) = &mut self.file else {
            self.due = false;
            return None;
        };
        match file.give(self.frames, &mut self.register, self.length) {
            Ok(()) => {
                self.due = false;
                None
            }
            Err(fault) => {
                self.due = false;
                self.failed = true;
                Some(fault)
            }
        }
    }

    fn put(&mut self, _output: u32, piece: &mut [u8]) {
        piece.copy_from_slice(&self.register[..self.length]);
    }

    fn joins(&self) {}
}
