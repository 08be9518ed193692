//! What a sink's file takes in one step.
ghost use Rattle.std.specs.Prelude.{◌≡◌, ◌*◌, ◌≤◌, Bool, OnOk, IfErr};
ghost use Rattle.outside_io.specs.Keeping.{KeepsSink};
ghost use Rattle.std.specs.Io.KnownBytes.{append_known};
ghost use Rattle.omx_types.specs.Formats.{IsWithinLimits, frame_bytes_of};
ghost use Rattle.outside_io.specs.Moves.{AppendsFront};
ghost use Rattle.audio_parts.specs.Causes.{HasWriteCause};
ghost use Rattle.part_forms.specs.Sinking.{head_due, pad_due, step_text};

use omx_types::{Format, PartFault};
use outside_io::{Sink, write_all};
use wav_form::head_bytes;

/// The whole piece.
fn write_piece<K: Sink>(sink: &mut K, piece: &[u8]) -> Result<(), PartFault>
    ensures whole { OnOk result (K.told sink.new ≡ append_known (K.told sink.old) piece.now) }
    ensures front { AppendsFront (K.told sink.old) (K.told sink.new) piece.now }
    ensures keeps_sink { KeepsSink K.Sink sink.old sink.new }
    ensures cause { IfErr result (HasWriteCause (K.faults sink.old) (K.faults sink.new)) }
{
    match write_all(sink, piece) {
        Ok(()) => Ok(()),
        Err(_) => Err(PartFault::Write),
    }
}

fn write_head<K: Sink>(
    sink: &mut K,
    is_headed: bool,
    format: Format,
    planned: u64,
) -> Result<(), PartFault>
    requires lawful { IsWithinLimits format }
    requires small { planned * frame_bytes_of format ≤ 134217728 }
    ensures whole { OnOk result (K.told sink.new ≡ append_known (K.told sink.old) (head_due is_headed format planned)) }
    ensures front { AppendsFront (K.told sink.old) (K.told sink.new) (head_due is_headed format planned) }
    ensures keeps_sink { KeepsSink K.Sink sink.old sink.new }
    ensures cause { IfErr result (HasWriteCause (K.faults sink.old) (K.faults sink.new)) }
{
    if is_headed {
        return write_piece(sink, &[]);
    }
    let mut head = [0; 58];
    let count = head_bytes(format, planned, &mut head);
    write_piece(sink, &head[..count])
}

fn write_pad<K: Sink>(
    sink: &mut K,
    is_last: bool,
    format: Format,
    planned: u64,
) -> Result<(), PartFault>
    requires lawful { IsWithinLimits format }
    requires small { planned * frame_bytes_of format ≤ 134217728 }
    ensures whole { OnOk result (K.told sink.new ≡ append_known (K.told sink.old) (pad_due is_last format planned)) }
    ensures front { AppendsFront (K.told sink.old) (K.told sink.new) (pad_due is_last format planned) }
    ensures keeps_sink { KeepsSink K.Sink sink.old sink.new }
    ensures cause { IfErr result (HasWriteCause (K.faults sink.old) (K.faults sink.new)) }
{
    if !is_last {
        return write_piece(sink, &[]);
    }
    let odd = planned * u64::from(format.frame_bytes()) % 2;
    if odd == 1 {
        return write_piece(sink, &[0]);
    }
    write_piece(sink, &[])
}

/// The head, the piece, and what stands behind the last planned frame. After a fault the sink has a front of that.
pub(crate) fn write_step<K: Sink>(
    sink: &mut K,
    is_headed: bool,
    format: Format,
    planned: u64,
    piece: &[u8],
    is_last: bool,
) -> Result<(), PartFault>
    requires lawful { IsWithinLimits format }
    requires small { planned * frame_bytes_of format ≤ 134217728 }
    ensures whole { OnOk result (K.told sink.new ≡ append_known (K.told sink.old) (step_text is_headed format planned piece.now is_last)) }
    ensures front { AppendsFront (K.told sink.old) (K.told sink.new) (step_text is_headed format planned piece.now is_last) }
    ensures keeps_sink { KeepsSink K.Sink sink.old sink.new }
    ensures cause { IfErr result (HasWriteCause (K.faults sink.old) (K.faults sink.new)) }
{
    write_head(sink, is_headed, format, planned)?;
    write_piece(sink, piece)?;
    write_pad(sink, is_last, format, planned)
}
