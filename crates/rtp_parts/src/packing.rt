//! Packing: a WAV file of G.711 is written as a list of RTP packets, and how many packets and frames it has.

ghost use Rattle.std.specs.Prelude.{◌≡◌, ◌≢◌, ℕ, ◌+◌, ◌*◌, ◌≤◌, ◌<◌, ◌^◌, List, length, take, drop, max, IfErr, OnErr, OnOk, Err, Result};
ghost use Rattle.std.specs.Io.KnownBytes.{append_known};
ghost use Rattle.outside_io.specs.Causes.{Rose};
ghost use Rattle.outside_io.specs.Keeping.{KeepsSink, KeepsSource};
ghost use Rattle.outside_io.specs.Moves.{AppendsFront, WhereTold};
ghost use Rattle.wav_form.specs.declared.heads.WavHead.{WavHead};
ghost use Rattle.omx_types.specs.declared.fault.WavFault.{WavFault};
ghost use Rattle.omx_types.specs.declared.fault.WavFault.TheVariants.{TooLarge};
ghost use Rattle.wav_form.specs.Passing.{AsksNoSamples};
ghost use Rattle.wav_form.specs.Reading.{Reads, most_bytes};
ghost use Rattle.rtp_parts.specs.Packing.{packet_count, texts_of};
ghost use Rattle.rtp_parts.specs.Answers.{IfShort, UnlessStopped, packing_of, counts_of, packets_file, StoppedPacking, IsStop};

use crate::RtpFault;
use crate::companding::companding_of;
use crate::records::put_records;
use g711_law::Companding;
use outside_io::{Sink, Source, read_exact, write_all};
use wav_form::read_head;

/// The frames of a packet; the last one may have fewer.
pub(crate) const PACKET_FRAMES: u64 = 160;

/// The samples that are read at once, at most: 128 packets.
const SAMPLES: usize = 20_480;

/// The bytes of 128 packets of 160 frames, each with its length and its header.
const RECORDS: usize = 22_272;

/// What was packed.
#[derive(Clone, Copy)]
pub struct Packed {
    pub packets: u64,
    pub frames: u64,
}

/// Cuts a WAV file of G.711, with 8,000 frames a second of one channel, into packets of RTP. It takes no memory.
pub fn pack<S: Source, K: Sink>(src: &mut S, snk: &mut K) -> Result<Packed, RtpFault>
    // Where the source tells its bytes
    ensures answer { WhereTold (S.told src.old) (λ bytes. (head : Result WavHead WavFault) → Reads bytes head →
        UnlessStopped result (λ r. r ≡ counts_of (packing_of bytes head))) }
    ensures file { WhereTold (S.told src.old) (λ bytes. (head : Result WavHead WavFault) → Reads bytes head →
        OnOk result (K.told snk.new ≡ append_known (K.told snk.old) (packets_file (packing_of bytes head)))) }
    ensures front { WhereTold (S.told src.old) (λ bytes. (head : Result WavHead WavFault) → Reads bytes head →
        AppendsFront (K.told snk.old) (K.told snk.new) (packets_file (packing_of bytes head))) }

    // Of a file that can't be packed nothing behind its head is asked for, whatever the answer.
    ensures asks_no_samples { WhereTold (S.told src.old) (λ bytes. (head : Result WavHead WavFault) → Reads bytes head →
        OnErr (packing_of bytes head) (AsksNoSamples bytes (S.asked src.old) (S.asked src.new))) }

    // Over every source and sink
    ensures too_large { most_bytes < S.size src.old → result ≡ Err (RtpFault.Head (TooLarge (S.size src.old))) }
    ensures read { result ≡ Err RtpFault.Read → Rose (S.faults src.old) (S.faults src.new) }
    ensures write { result ≡ Err RtpFault.Write → Rose (K.faults snk.old) (K.faults snk.new) }
    ensures short { IfErr result (λ fault. IfShort fault (StoppedPacking (S.size src.old) (S.told src.old) (S.ends src.old))) }
    ensures no_memory { ¬ (result ≡ Err RtpFault.OutOfMemory) }
    ensures keeps_source { KeepsSource S.Source src.old src.new }
    ensures keeps_sink { KeepsSink K.Sink snk.old snk.new }
    ensures read_stays { result ≢ Err RtpFault.Read → S.faults src.new ≡ S.faults src.old }
    ensures write_alone { result ≡ Err RtpFault.Write → S.faults src.new ≡ S.faults src.old }
    ensures short_alone { IfErr result (λ fault. IfShort fault (λ _ _. (S.faults src.new ≡ S.faults src.old) × (K.faults snk.new ≡ K.faults snk.old))) }
    ensures stand { OnOk result ((S.faults src.new ≡ S.faults src.old) × (K.faults snk.new ≡ K.faults snk.old)) }
{
    let head = read_head(src)?;
    let Some(companding) = companding_of(head.format) else {
        return Err(RtpFault::WrongFormat);
    };
    let size = src.size();
    prove!(head.start + head.frames <= size);
    match write_all(snk, b"omxrtp1\n") {
        Ok(()) => {}
        Err(_) => return Err(RtpFault::Write),
    }
    pack_samples(src, snk, companding, head.frames)?;
    Ok(Packed {
        packets: head.frames.div_ceil(PACKET_FRAMES),
        frames: head.frames,
    })
}

/// Packs the next frames of a source.
fn pack_samples<S: Source, K: Sink>(
    src: &mut S,
    snk: &mut K,
    companding: Companding,
    frames: u64,
) -> Result<(), RtpFault>
    requires within { S.offset src.old + frames ≤ S.size src.old }
    requires few { frames ≤ 67108864 }
    ensures whole { WhereTold (S.told src.old) (λ bytes. OnOk result (
        K.told snk.new ≡ append_known (K.told snk.old) (texts_of companding (take frames (drop (S.offset src.old) bytes)) 0 (packet_count frames)))) }
    ensures front { WhereTold (S.told src.old) (λ bytes.
        AppendsFront (K.told snk.old) (K.told snk.new) (texts_of companding (take frames (drop (S.offset src.old) bytes)) 0 (packet_count frames))) }
    ensures stop { IfErr result (IsStop (S.size src.old) (S.ends src.old) (S.offset src.old)
        (S.faults src.old) (S.faults src.new) (K.faults snk.old) (K.faults snk.new)) }
    ensures keeps_source { KeepsSource S.Source src.old src.new }
    ensures keeps_sink { KeepsSink K.Sink snk.old snk.new }
    ensures stand { OnOk result ((S.faults src.new ≡ S.faults src.old) × (K.faults snk.new ≡ K.faults snk.old)) }
{
    let mut samples = [0u8; SAMPLES];
    let mut records = [0u8; RECORDS];
    let mut done = 0;
    while done < frames {
        let count = (frames - done).min(SAMPLES as u64);
        let first = done / PACKET_FRAMES;
        pack_piece(
            src,
            snk,
            companding,
            first,
            &mut samples[..count as usize],
            &mut records,
        )?;
        done += count;
    }
    Ok(())
}

/// Reads the next samples, which are to fill `samples`, and writes their packets from number `first` on, by way of `records`.
fn pack_piece<S: Source, K: Sink>(
    src: &mut S,
    snk: &mut K,
    companding: Companding,
    first: u64,
    samples: &mut [u8],
    records: &mut [u8],
) -> Result<(), RtpFault>
    requires within { S.offset src.old + length samples.old ≤ S.size src.old }
    requires few { first ≤ 419431 }
    requires piece { length samples.old ≤ 20480 }
    requires room { length records.old ≡ 22272 }
    ensures whole { WhereTold (S.told src.old) (λ bytes. (all : List ℕ) →
        take (length samples.old) (drop (S.offset src.old) bytes) ≡ take (160 * packet_count (length samples.old)) (drop (160 * first) all) →
        OnOk result (K.told snk.new ≡ append_known (K.told snk.old) (texts_of companding all first (packet_count (length samples.old))))) }
    ensures front { WhereTold (S.told src.old) (λ bytes. (all : List ℕ) →
        take (length samples.old) (drop (S.offset src.old) bytes) ≡ take (160 * packet_count (length samples.old)) (drop (160 * first) all) →
        AppendsFront (K.told snk.old) (K.told snk.new) (texts_of companding all first (packet_count (length samples.old)))) }
    ensures offset { OnOk result (S.offset src.new ≡ S.offset src.old + length samples.old) }
    ensures reached { WhereTold (S.ends src.old) (λ end. OnOk result (S.offset src.new ≤ max end (S.offset src.old))) }
    ensures stop { IfErr result (IsStop (S.size src.old) (S.ends src.old) (S.offset src.old)
        (S.faults src.old) (S.faults src.new) (K.faults snk.old) (K.faults snk.new)) }
    ensures keeps_source { KeepsSource S.Source src.old src.new }
    ensures keeps_sink { KeepsSink K.Sink snk.old snk.new }
    ensures stand { OnOk result ((S.faults src.new ≡ S.faults src.old) × (K.faults snk.new ≡ K.faults snk.old)) }
{
    read_exact(src, samples)?;
    let len = put_records(records, companding, first, samples);
    match write_all(snk, &records[..len]) {
        Ok(()) => Ok(()),
        Err(_) => Err(RtpFault::Write),
    }
}
