//! The file of a source: where its next frame is, how many are left, and the reading of a step's frames.

ghost use Rattle.std.specs.Prelude.{◌≡◌, ◌+◌, ◌-◌, ◌*◌, ◌≤◌, length, take, max, IfErr, OnOk, OnErr};
ghost use Rattle.omx_types.specs.Formats.{frame_bytes_of};
ghost use Rattle.outside_io.specs.Keeping.{KeepsSource};
ghost use Rattle.outside_io.specs.Moves.{WhereTold};
ghost use Rattle.part_api.specs.Steps.{ComesFirst};
ghost use Rattle.audio_parts.specs.Causes.{HasReadCause};
ghost use Rattle.audio_parts.specs.declared.part_file.PartFile.TheVariants.{From};
ghost use Rattle.part_forms.specs.Files.{rest_of};

use crate::part_file::PartFile;
use crate::reads::read_frames;
use omx_types::{Format, PartFault};
use outside_io::Source;

/// The file of a source.
#[derive(Drop)]
pub struct SourceFile<S> {
    pub(crate) source: S,
    pub(crate) format: Format,
    /// The frames for which it came.
    pub(crate) attached: u64,
    /// How many of them are left.
    pub(crate) left: u64,
    /// The offset of the next one.
    pub(crate) next: u64,
}

impl<S: Source> SourceFile<S> {
    /// From where the source stands.
    pub(crate) fn new(source: S, format: Format, frames: u64) -> SourceFile<S>
        ensures source { result.source ≡ source }
        ensures format { result.format ≡ format }
        ensures attached { result.attached ≡ frames }
        ensures left { result.left ≡ frames }
        ensures next { result.next ≡ S.offset source }
    {
        let next = source.offset();
        SourceFile {
            source,
            format,
            attached: frames,
            left: frames,
            next,
        }
    }

    /// Reads its next frames to the front of the register, which have `count` bytes. After a fault they are still left.
    pub(crate) fn give(
        &mut self,
        frames: u32,
        register: &mut [u8],
        count: usize,
    ) -> Result<(), PartFault>
        requires room { count ≤ length register.old }
        requires whole { count ≡ frames * frame_bytes_of self.old.format }
        requires few { frames ≤ self.old.left }
        requires there { self.old.next + self.old.left * frame_bytes_of self.old.format ≤ S.size self.old.source }
        ensures format { self.new.format ≡ self.old.format }
        ensures attached { self.new.attached ≡ self.old.attached }
        ensures there { self.new.next + self.new.left * frame_bytes_of self.new.format ≤ S.size self.new.source }
        ensures keeps_source { KeepsSource S.Source self.old.source self.new.source }
        ensures first { OnOk result (ComesFirst (take count register.new)
            (rest_of (S.told self.old.source) self.old.next (self.old.left * frame_bytes_of self.old.format))
            (rest_of (S.told self.new.source) self.new.next (self.new.left * frame_bytes_of self.old.format))) }
        ensures left { OnOk result (self.new.left ≡ self.old.left - frames) }
        ensures next { OnOk result (self.new.next ≡ self.old.next + count) }
        ensures placed { OnOk result (self.new.next ≡ S.offset self.new.source) }
        ensures stops { WhereTold (S.ends self.old.source) (λ end. OnOk result (self.new.next ≤ max end self.old.next)) }
        ensures kept { OnErr result ((self.new.left ≡ self.old.left) × (self.new.next ≡ self.old.next)) }
        ensures cause { IfErr result (HasReadCause (S.size self.old.source) (S.ends self.old.source) self.old.next
            (S.faults self.old.source) (S.faults self.new.source)) }
    {
        self.next = read_frames(&mut self.source, self.next, register, count)?;
        self.left -= u64::from(frames);
        Ok(())
    }

    /// With the frames for which it came.
    pub(crate) fn into_part_file<K>(self) -> PartFile<S, K>
        ensures { result ≡ From self.source self.format self.attached }
    {
        PartFile::From {
            src: self.source,
            format: self.format,
            frames: self.attached,
        }
    }
}
