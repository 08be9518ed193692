//! Unpacking: a list of RTP packets is written as a WAV file, and how many of them were late, repeated or skipped.

ghost use Rattle.std.specs.Prelude.{◌≡◌, ◌≢◌, ℕ, ◌+◌, ◌≤◌, ◌<◌, ◌++◌, length, take, drop, IfErr, IfOk, OnOk};
ghost use Rattle.outside_io.specs.Asking.{AsksWithin};
ghost use Rattle.outside_io.specs.Keeping.{KeepsSink, KeepsSource};
ghost use Rattle.std.specs.Io.KnownBytes.{append_known};
ghost use Rattle.outside_io.specs.Moves.{AppendsFront, WhereTold};
ghost use Rattle.wav_form.specs.Reading.{most_bytes};
ghost use Rattle.part_forms.specs.Writing.{written};
ghost use Rattle.rtp_parts.specs.Packets.{silence_of, format_of_companding};
ghost use Rattle.rtp_parts.specs.Packing.{magic};
ghost use Rattle.rtp_parts.specs.Unpacking.{most_codes, unpacked, wav_of};
ghost use Rattle.rtp_parts.specs.Answers.{IfShort, UnlessStopped, unpacked_counts};
ghost use Rattle.rtp_parts.specs.Ends.{EndsUnpacking};
ghost use Rattle.rtp_parts.specs.Steps.{course_of, counts_in, whole_course, whole_codes, survey_by, survey_of, StopsMoving};

use crate::RtpFault;
use crate::companding::format_of;
use crate::pieces::write_piece;
use crate::unpacker::Unpacker;
use g711_law::Companding;
use omx_types::WavFault;
use outside_io::{Sink, Source, read_exact, write_all};
use std::alloc::Global;
use wav_form::head_bytes;

/// The longest list of packets that is read, in bytes.
const MOST_BYTES: u64 = 67_108_864;

/// The most codes that are written.
const MOST_CODES: u64 = 67_108_864;

/// The longest packet of a list.
const MOST_PACKET: usize = 65_535;

/// The bytes before the first packet.
const MAGIC: u64 = 8;

/// What was unpacked: the frames and bytes of the WAV file, and how many packets there were of each kind.
#[derive(Clone, Copy)]
pub struct Unpacked {
    pub frames: u64,
    pub bytes: u64,
    /// All packets of the list, those that were skipped too.
    pub packets: u64,
    pub accepted: u64,
    pub late: u64,
    pub repeated: u64,
    /// Cut, not well formed, or of another stream than the first that is.
    pub skipped: u64,
}

/// Puts a list of packets together as a WAV file. The head of the file has the number of frames, so the list is read twice,
/// with a window of 64 packets: memory doesn't grow with the list.
pub fn unpack<S: Source, K: Sink>(
    alloc: Global,
    src: &mut S,
    snk: &mut K,
) -> Result<Unpacked, RtpFault>
    // Where the source tells its bytes
    ensures answer { WhereTold (S.told src.old) (λ bytes. UnlessStopped result (λ r. r ≡ unpacked_counts (unpacked bytes))) }
    ensures file { WhereTold (S.told src.old) (λ bytes. OnOk result (K.told snk.new ≡ append_known (K.told snk.old) (wav_of (unpacked bytes)))) }
    ensures front { WhereTold (S.told src.old) (λ bytes. AppendsFront (K.told snk.old) (K.told snk.new) (wav_of (unpacked bytes))) }

    // Of what is no file of packets only the first 8 bytes are asked for, and it is short only in these.
    ensures asks_no_packets { WhereTold (S.told src.old) (λ bytes. take 8 bytes ≢ magic → AsksWithin (S.asked src.old) (S.asked src.new) 8) }
    ensures asks_no_further { WhereTold (S.told src.old) (λ bytes. take 8 bytes ≢ magic → IfErr result (λ fault. IfShort fault (λ at _. at < 8))) }

    // Over every source and sink
    ensures too_large { most_bytes < S.size src.old → result ≡ Err (RtpFault.Head (WavFault.TooLarge (S.size src.old))) }
    ensures cause { IfErr result (EndsUnpacking (S.size src.old) (S.ends src.old) (S.faults src.old) (S.faults src.new) (K.faults snk.old) (K.faults snk.new)) }
    ensures keeps_source { KeepsSource S.Source src.old src.new }
    ensures keeps_sink { KeepsSink K.Sink snk.old snk.new }
    ensures stand { OnOk result ((S.faults src.new ≡ S.faults src.old) × (K.faults snk.new ≡ K.faults snk.old)) }
{
    check_magic(src)?;
    let Ok(mut buffer) = vec![in alloc; 0u8; MOST_PACKET] else {
        return Err(RtpFault::OutOfMemory);
    };
    let (companding, counts) = survey(alloc, src, &mut buffer)?;
    match src.seek_to(MAGIC) {
        Ok(()) => {}
        Err(_) => return Err(RtpFault::Read),
    }
    write_wav(alloc, src, snk, companding, counts.frames, &mut buffer)?;
    Ok(counts)
}

/// Reads what each file of packets begins with.
fn check_magic<S: Source>(src: &mut S) -> Result<(), RtpFault>
    ensures begins { WhereTold (S.told src.old) (λ bytes. OnOk result ((take 8 bytes ≡ magic) × (length bytes ≤ most_bytes))) }
    ensures other { WhereTold (S.told src.old) (λ bytes. UnlessStopped result (λ r. IfErr r (λ fault. unpacked bytes ≡ Err fault))) }
    ensures few { OnOk result (S.size src.old ≤ most_bytes) }
    ensures offset { OnOk result (S.offset src.new ≡ 8) }
    ensures within { OnOk result (8 ≤ S.size src.old) }
    ensures asks_no_further { IfErr result (λ fault. IfShort fault (λ at _. at < 8)) }
    ensures asks { AsksWithin (S.asked src.old) (S.asked src.new) 8 }
    ensures reached { WhereTold (S.ends src.old) (λ end. OnOk result (8 ≤ end)) }
    ensures too_large { most_bytes < S.size src.old → result ≡ Err (RtpFault.Head (WavFault.TooLarge (S.size src.old))) }
    ensures cause { IfErr result (EndsUnpacking (S.size src.old) (S.ends src.old) (S.faults src.old) (S.faults src.new) 0 0) }
    ensures keeps_source { KeepsSource S.Source src.old src.new }
    ensures stays { OnOk result (S.faults src.new ≡ S.faults src.old) }
{
    let size = src.size();
    if size > MOST_BYTES {
        return Err(RtpFault::Head(WavFault::TooLarge(size)));
    }
    if size < MAGIC {
        return Err(RtpFault::NotPackets);
    }
    match src.seek_to(0) {
        Ok(()) => {}
        Err(_) => return Err(RtpFault::Read),
    }
    let mut magic = [0u8; 8];
    read_exact(src, &mut magic)?;
    if magic == *b"omxrtp1\n" {
        Ok(())
    } else {
        Err(RtpFault::NotPackets)
    }
}

/// Goes over a list once: its companding, and how much it is unpacked to.
fn survey<S: Source>(
    alloc: Global,
    src: &mut S,
    buffer: &mut [u8],
) -> Result<(Companding, Unpacked), RtpFault>
    requires room { length buffer.old ≡ 65535 }
    requires few { S.size src.old ≤ most_bytes }
    requires reached { WhereTold (S.ends src.old) (λ end. S.offset src.old ≤ end) }
    ensures answer { WhereTold (S.told src.old) (λ bytes. UnlessStopped result (λ r. r ≡ survey_of (drop (S.offset src.old) bytes))) }
    ensures few { IfOk result (λ found. found.1.frames ≤ most_codes) }
    ensures cause { IfErr result (EndsUnpacking (S.size src.old) (S.ends src.old) (S.faults src.old) (S.faults src.new) 0 0) }
    ensures keeps_source { KeepsSource S.Source src.old src.new }
    ensures stays { OnOk result (S.faults src.new ≡ S.faults src.old) }
{
    let mut unpacker = Unpacker::new(alloc);
    let mut frames = 0;
    'pieces: loop {
        match unpacker.next(alloc, src, buffer)? {
            Some(piece) => {
                frames += u64::from(piece.silence) + piece.payload.len() as u64;
                if frames > MOST_CODES {
                    return Err(RtpFault::TooLong);
                }
            }
            None => return found(&unpacker, frames),
        }
    }
}

/// What was found in a list that an unpacker went over to its end.
fn found(unpacker: &Unpacker, frames: u64) -> Result<(Companding, Unpacked), RtpFault>
    requires { frames ≤ most_codes }
    ensures { result ≡ survey_by unpacker.now.stream (counts_in (course_of unpacker.now)) frames }
{
    let Some(stream) = unpacker.stream else {
        return Err(RtpFault::NoPackets);
    };
    let window = &unpacker.window;
    let counts = Unpacked {
        frames,
        bytes: 58 + frames + frames % 2,
        packets: unpacker.packets,
        accepted: window.accepted,
        late: window.late,
        repeated: window.repeated,
        skipped: unpacker.packets - (window.accepted + window.late + window.repeated),
    };
    Ok((stream.companding, counts))
}

/// Writes the WAV file of a list that is unpacked to so many frames.
fn write_wav<S: Source, K: Sink>(
    alloc: Global,
    src: &mut S,
    snk: &mut K,
    companding: Companding,
    frames: u64,
    buffer: &mut [u8],
) -> Result<(), RtpFault>
    requires room { length buffer.old ≡ 65535 }
    requires few { S.size src.old ≤ most_bytes }
    requires short { frames ≤ most_codes }
    requires reached { WhereTold (S.ends src.old) (λ end. S.offset src.old ≤ end) }
    ensures file { WhereTold (S.told src.old) (λ bytes. frames ≡ length (whole_codes (silence_of companding) (drop (S.offset src.old) bytes)) →
        OnOk result (K.told snk.new ≡ append_known (K.told snk.old) (written (format_of_companding companding) (whole_codes (silence_of companding) (drop (S.offset src.old) bytes))))) }
    ensures front { WhereTold (S.told src.old) (λ bytes. frames ≡ length (whole_codes (silence_of companding) (drop (S.offset src.old) bytes)) →
        AppendsFront (K.told snk.old) (K.told snk.new) (written (format_of_companding companding) (whole_codes (silence_of companding) (drop (S.offset src.old) bytes)))) }
    ensures stop { IfErr result (StopsMoving (S.size src.old) (S.ends src.old) (S.faults src.old) (S.faults src.new) (K.faults snk.old) (K.faults snk.new)) }
    ensures keeps_source { KeepsSource S.Source src.old src.new }
    ensures keeps_sink { KeepsSink K.Sink snk.old snk.new }
    ensures stand { OnOk result ((S.faults src.new ≡ S.faults src.old) × (K.faults snk.new ≡ K.faults snk.old)) }
{
    let mut head = [0u8; 58];
    let len = head_bytes(format_of(companding), frames, &mut head);
    match write_all(snk, &head[..len]) {
        Ok(()) => {}
        Err(_) => return Err(RtpFault::Write),
    }
    write_codes(alloc, src, snk, companding, buffer)?;
    if frames % 2 == 1 {
        match write_all(snk, &[0]) {
            Ok(()) => Ok(()),
            Err(_) => Err(RtpFault::Write),
        }
    } else {
        Ok(())
    }
}

/// Writes the codes that a list is unpacked to.
fn write_codes<S: Source, K: Sink>(
    alloc: Global,
    src: &mut S,
    snk: &mut K,
    companding: Companding,
    buffer: &mut [u8],
) -> Result<(), RtpFault>
    requires room { length buffer.old ≡ 65535 }
    requires few { S.size src.old ≤ most_bytes }
    requires reached { WhereTold (S.ends src.old) (λ end. S.offset src.old ≤ end) }
    ensures whole { WhereTold (S.told src.old) (λ bytes.
        OnOk result (K.told snk.new ≡ append_known (K.told snk.old) (whole_codes (silence_of companding) (drop (S.offset src.old) bytes)))) }
    ensures front { WhereTold (S.told src.old) (λ bytes.
        AppendsFront (K.told snk.old) (K.told snk.new) (whole_codes (silence_of companding) (drop (S.offset src.old) bytes))) }
    ensures stop { IfErr result (StopsMoving (S.size src.old) (S.ends src.old) (S.faults src.old) (S.faults src.new) (K.faults snk.old) (K.faults snk.new)) }
    ensures keeps_source { KeepsSource S.Source src.old src.new }
    ensures keeps_sink { KeepsSink K.Sink snk.old snk.new }
    ensures stand { OnOk result ((S.faults src.new ≡ S.faults src.old) × (K.faults snk.new ≡ K.faults snk.old)) }
{
    let mut unpacker = Unpacker::new(alloc);
    'pieces: loop {
        match unpacker.next(alloc, src, buffer)? {
            Some(piece) => {
                match write_piece(snk, companding, &piece) {
                    Ok(()) => {}
                    Err(_) => return Err(RtpFault::Write),
                }
            }
            None => return Ok(()),
        }
    }
}
