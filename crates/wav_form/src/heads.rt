//! The head of a WAV file is read: its RIFF head, then chunk by chunk up to the samples.

ghost use Rattle.std.specs.Prelude.{◌≡◌, ◌≢◌, ℕ, ◌+◌, ◌<◌, ◌≤◌, ◌^◌, List, length, Some, None, Ok, IfOk, IfErr, IfSome, OnOk, Err, IsTrue, ◌↔◌};
ghost use Rattle.omx_types.specs.Formats.{IsWithinLimits};
ghost use Rattle.outside_io.specs.Asking.{AsksWithin};
ghost use Rattle.outside_io.specs.Causes.{Rose};
ghost use Rattle.outside_io.specs.Keeping.{KeepsSource};
ghost use Rattle.outside_io.specs.Moves.{WhereTold};
ghost use Rattle.wav_form.specs.Chunks.{Chunk, AreChunks};
ghost use Rattle.wav_form.specs.Passing.{AsksNoSamples};
ghost use Rattle.wav_form.specs.Reading.{IsRiff, Reads, FitsFile, most_bytes};
ghost use Rattle.wav_form.specs.Search.{view, AnswersAs, answer_after, at_samples, at_end};
ghost use Rattle.wav_form.specs.Stops.{UnlessStopped, IfShort, StoppedShort, IsRiffFault};

use crate::chunks::{CHUNK_HEAD, ChunkHead, read_chunk};
use crate::filling::fill_from;
use crate::formats::known_format;
use omx_types::{Format, WavFault};
use outside_io::Source;

/// The longest file that is read, in bytes.
const MOST_BYTES: u64 = 67_108_864;

/// The bytes before the first chunk.
const RIFF_HEAD: u64 = 12;

/// The format of a WAV file, the offset of its samples, and how many whole frames they are.
#[derive(Clone, Copy, Debug, PartialEq, Eq)]
pub struct WavHead {
    pub format: Format,
    pub start: u64,
    pub frames: u64,
}

/// Reads the head of a WAV file. After an `Ok` the source stands at the samples; after an `Err` its offset is free.
/// It reads with a fixed buffer, passes over what is skipped by seeking, and asks for nothing behind the head of the
/// `data` chunk.
pub fn read_head<S: Source>(src: &mut S) -> Result<WavHead, WavFault>
    // Where the source tells its bytes, the answer is what they read as, or a stop.
    ensures reads { WhereTold (S.told src.old) (λ bytes. UnlessStopped result (Reads bytes)) }
    ensures read { result ≡ Err WavFault.Read → Rose (S.faults src.old) (S.faults src.new) }
    ensures short { IfErr result (λ fault. IfShort fault (StoppedShort (S.size src.old) (S.told src.old) (S.ends src.old))) }

    // A file with samples is short only before them.
    ensures asks_no_further { WhereTold (S.told src.old) (λ bytes. (head : WavHead) → Reads bytes (Ok head) →
        IfErr result (λ fault. IfShort fault (λ at _. at < head.start))) }

    // Nothing behind the head of the samples is asked for, whatever the answer.
    ensures asks_no_samples { WhereTold (S.told src.old) (λ bytes. AsksNoSamples bytes (S.asked src.old) (S.asked src.new)) }

    // Over every source
    ensures asks { IfOk result (λ head. AsksWithin (S.asked src.old) (S.asked src.new) head.start) }
    ensures start { WhereTold (S.ends src.old) (λ end. IfOk result (λ head. head.start ≤ end)) }
    ensures stays { result ≢ Err WavFault.Read → S.faults src.new ≡ S.faults src.old }
    ensures fits { IfOk result (λ head. FitsFile head (S.size src.old)) }
    ensures too_large { most_bytes < S.size src.old → result ≡ Err (WavFault.TooLarge (S.size src.old)) }
    ensures offset { IfOk result (λ head. S.offset src.new ≡ head.start) }
    ensures keeps_source { KeepsSource S.Source src.old src.new }
{
    let size = src.size();
    if size > MOST_BYTES {
        return Err(WavFault::TooLarge(size));
    }
    check_riff(src, size)?;
    search(src, size)
}

/// Whether the file begins as a RIFF file of waves.
fn check_riff<S: Source>(src: &mut S, size: u64) -> Result<(), WavFault>
    requires size { size ≡ S.size src.old }
    requires whole { WhereTold (S.told src.old) (λ bytes. size ≡ length bytes) }
    ensures riff { WhereTold (S.told src.old) (λ bytes. OnOk result (IsRiff bytes)) }
    ensures not_riff { WhereTold (S.told src.old) (λ bytes. result ≡ Err WavFault.NotRiff → ¬ (IsRiff bytes)) }
    ensures long { OnOk result (12 ≤ size) }
    ensures reached { WhereTold (S.ends src.old) (λ end. OnOk result (12 ≤ end)) }
    ensures fault { IfErr result (IsRiffFault (S.size src.old) (S.ends src.old)) }
    ensures keeps_source { KeepsSource S.Source src.old src.new }
    ensures read { result ≡ Err WavFault.Read → Rose (S.faults src.old) (S.faults src.new) }
    ensures stays { result ≢ Err WavFault.Read → S.faults src.new ≡ S.faults src.old }
    ensures asks { AsksWithin (S.asked src.old) (S.asked src.new) 12 }
{
    if size < RIFF_HEAD {
        return Err(WavFault::NotRiff);
    }
    let mut head = [0u8; 12];
    fill_from(src, 0, &mut head)?;
    if is_riff(&head) {
        Ok(())
    } else {
        Err(WavFault::NotRiff)
    }
}

fn is_riff(head: &[u8; 12]) -> bool
    ensures { IsTrue result ↔ IsRiff head.now }
{
    head[..4] == b"RIFF"[..] && head[8..] == b"WAVE"[..]
}

/// Goes from chunk to chunk up to the samples.
fn search<S: Source>(src: &mut S, size: u64) -> Result<WavHead, WavFault>
    requires size { size ≡ S.size src.old }
    requires whole { WhereTold (S.told src.old) (λ bytes. size ≡ length bytes) }
    requires small { size ≤ most_bytes }
    requires reached { WhereTold (S.ends src.old) (λ end. 12 ≤ end) }
    ensures answer { WhereTold (S.told src.old) (λ bytes. (chunks : List Chunk) → AreChunks bytes 12 chunks →
        AnswersAs result (answer_after bytes None chunks)) }
    ensures fits { IfOk result (λ head. FitsFile head size) }
    ensures offset { IfOk result (λ head. S.offset src.new ≡ head.start) }
    ensures keeps_source { KeepsSource S.Source src.old src.new }
    ensures read { result ≡ Err WavFault.Read → Rose (S.faults src.old) (S.faults src.new) }
    ensures short { IfErr result (λ fault. IfShort fault (StoppedShort (S.size src.old) (S.told src.old) (S.ends src.old))) }
    ensures stays { result ≢ Err WavFault.Read → S.faults src.new ≡ S.faults src.old }
    ensures asks { IfOk result (λ head. AsksWithin (S.asked src.old) (S.asked src.new) head.start) }
    ensures asks_no_samples { WhereTold (S.told src.old) (λ bytes. AsksNoSamples bytes (S.asked src.old) (S.asked src.new)) }
    ensures behind { IfOk result (λ head. 20 ≤ head.start) }
    ensures start { WhereTold (S.ends src.old) (λ end. IfOk result (λ head. head.start ≤ end)) }
{
    let mut known: Option<Format> = None;
    let mut offset = RIFF_HEAD;
    while offset + CHUNK_HEAD <= size {
        let chunk = read_chunk(src, offset)?;
        if chunk.is_samples() {
            return head_of(known, &chunk, size);
        }
        known = known_format(src, known, &chunk)?;
        offset = chunk.end();
    }
    Err(fault_at_end(known))
}

/// The head of a file of this size whose samples are this chunk's.
fn head_of(known: Option<Format>, chunk: &ChunkHead, size: u64) -> Result<WavHead, WavFault>
    requires within { chunk.now.content ≤ size }
    requires small { size ≤ most_bytes }
    requires known { IfSome known IsWithinLimits }
    ensures answer { (bytes : List ℕ) → size ≡ length bytes → result ≡ at_samples bytes known (view chunk.now) }
    ensures fits { IfOk result (λ head. FitsFile head size) }
    ensures start { IfOk result (λ head. head.start ≡ chunk.now.content) }
    ensures no_format { IfErr result (λ fault. fault ≡ WavFault.NoFormat) }
{
    match known {
        None => Err(WavFault::NoFormat),
        Some(format) => {
            let bytes = u64::from(chunk.size).min(size - chunk.content);
            Ok(WavHead {
                format,
                start: chunk.content,
                frames: bytes / u64::from(format.frame_bytes()),
            })
        }
    }
}

fn fault_at_end(known: Option<Format>) -> WavFault
    ensures { result ≡ at_end known }
{
    match known {
        None => WavFault::NoFormat,
        Some(_) => WavFault::NoSamples,
    }
}
