//! The file of a sink: the frames planned for it, how many are left, and the writing of a step's piece.

ghost use Rattle.std.specs.Prelude.{◌≡◌, ◌-◌, ◌*◌, ◌≤◌, true, false, length, IfErr, OnOk, OnErr};
ghost use Rattle.std.specs.Io.KnownBytes.{append_known};
ghost use Rattle.omx_types.specs.Formats.{IsWithinLimits, frame_bytes_of};
ghost use Rattle.outside_io.specs.Keeping.{KeepsSink};
ghost use Rattle.outside_io.specs.Moves.{AppendsFront};
ghost use Rattle.audio_parts.specs.Causes.{HasWriteCause};
ghost use Rattle.audio_parts.specs.declared.part_file.PartFile.TheVariants.{To};
ghost use Rattle.part_forms.specs.Sinking.{sink_text, is_last_among};

use crate::part_file::PartFile;
use crate::writes::write_step;
use omx_types::{Format, PartFault};
use outside_io::Sink;

/// The file of a sink.
#[derive(Drop)]
pub struct SinkFile<K> {
    pub(crate) sink: K,
    pub(crate) planned: u64,
    /// How many planned frames aren't written.
    pub(crate) left: u64,
    /// The head is written.
    pub(crate) headed: bool,
}

/// Whether the last of the planned frames that are left is among so many.
fn is_last_among(left: u64, frames: u32) -> bool
    ensures { result ≡ is_last_among left frames }
{
    left >= 1 && left <= u64::from(frames)
}

impl<K: Sink> SinkFile<K> {
    pub(crate) fn new(sink: K, planned: u64) -> SinkFile<K>
        ensures { result ≡ record { sink = sink; planned = planned; left = planned; headed = false } }
    {
        SinkFile {
            sink,
            planned,
            left: planned,
            headed: false,
        }
    }

    /// Writes the piece of a step of so many frames. After a fault the file has a front of what it was to take.
    pub(crate) fn write(
        &mut self,
        format: Format,
        piece: &[u8],
        frames: u32,
    ) -> Result<(), PartFault>
        requires lawful { IsWithinLimits format }
        requires small { self.old.planned * frame_bytes_of format ≤ 134217728 }
        requires whole { length piece.now ≡ frames * frame_bytes_of format }
        requires few { length piece.now ≤ 8192 }
        ensures planned { self.new.planned ≡ self.old.planned }
        ensures whole { OnOk result (K.told self.new.sink ≡ append_known (K.told self.old.sink)
            (sink_text self.old.headed format self.old.planned self.old.left frames piece.now)) }
        ensures front { AppendsFront (K.told self.old.sink) (K.told self.new.sink)
            (sink_text self.old.headed format self.old.planned self.old.left frames piece.now) }
        ensures headed { OnOk result (self.new.headed ≡ true) }
        ensures left { OnOk result (self.new.left ≡ self.old.left - frames) }
        ensures kept { OnErr result ((self.new.headed ≡ self.old.headed) × (self.new.left ≡ self.old.left)) }
        ensures keeps_sink { KeepsSink K.Sink self.old.sink self.new.sink }
        ensures cause { IfErr result (HasWriteCause (K.faults self.old.sink) (K.faults self.new.sink)) }
    {
        let count = u64::from(frames).min(self.left);
        let length = (count * u64::from(format.frame_bytes())) as usize;
        let is_last = is_last_among(self.left, frames);
        write_step(
            &mut self.sink,
            self.headed,
            format,
            self.planned,
            &piece[..length],
            is_last,
        )?;
        self.headed = true;
        self.left -= count;
        Ok(())
    }

    /// With the frames for which it came.
    pub(crate) fn into_part_file<S>(self) -> PartFile<S, K>
        ensures { result ≡ To self.sink self.planned }
    {
        PartFile::To {
            snk: self.sink,
            frames: self.planned,
        }
    }
}
