//! Reading a list of packets by records: a whole packet behind its length, one that is cut, or the end.

ghost use Rattle.std.specs.Prelude.{◌≡◌, ◌-◌, ◌≤◌, length, drop, IfErr, IfOk, OnOk};
ghost use Rattle.outside_io.specs.Keeping.{KeepsSource};
ghost use Rattle.outside_io.specs.Moves.{WhereTold};
ghost use Rattle.rtp_parts.specs.Steps.{RecordAt, RecordTakes, StopsReading};

use crate::RtpFault;
use byteorder::{BigEndian, ByteOrder};
use outside_io::{Source, read_exact};

/// What the next record of a list is.
pub(crate) enum Record {
    /// So many bytes were read.
    Whole(usize),
    /// The file ends inside.
    Cut,
    End,
}

/// Reads the next record of a list.
pub(crate) fn read_record<S: Source>(src: &mut S, buffer: &mut [u8]) -> Result<Record, RtpFault>
    requires room { length buffer.old ≡ 65535 }
    requires reached { WhereTold (S.ends src.old) (λ end. S.offset src.old ≤ end) }
    ensures record { WhereTold (S.told src.old) (λ bytes. IfOk result (
        RecordAt buffer.new (drop (S.offset src.old) bytes) (drop (S.offset src.new) bytes))) }
    ensures takes { IfOk result (RecordTakes (S.size src.old - S.offset src.old) (S.size src.old - S.offset src.new)) }
    ensures stop { IfErr result (StopsReading (S.size src.old) (S.ends src.old) (S.faults src.old) (S.faults src.new)) }
    ensures reached { WhereTold (S.ends src.old) (λ end. OnOk result (S.offset src.new ≤ end)) }
    ensures keeps_source { KeepsSource S.Source src.old src.new }
    ensures stays { OnOk result (S.faults src.new ≡ S.faults src.old) }
{
    let left = src.size() - src.offset();
    if left == 0 {
        return Ok(Record::End);
    }
    if left == 1 {
        return Ok(Record::Cut);
    }
    let mut head = [0u8; 2];
    read_exact(src, &mut head)?;
    let len = BigEndian::read_u16(&head);
    if left - 2 < u64::from(len) {
        return Ok(Record::Cut);
    }
    let len = usize::from(len);
    read_exact(src, &mut buffer[..len])?;
    Ok(Record::Whole(len))
}
