//! The commands `pack` and `unpack`: a file is turned into another, and what fails is told as a fault.

ghost use Rattle.std.specs.Prelude.{◌≡◌, ◌⊎◌, ◌≤◌, [], Some, None, Ok, Err, length, IsTrue, IsSome, IfOk, IfErr, OnOk, OnErr};
ghost use Rattle.outside_io.specs.Causes.{Rose, sum_of_counts};
ghost use Rattle.outside_io.specs.Files.{CountsStand, GoesOn, IsFrontOf, SameBut, with_name};
ghost use Rattle.outside_io.specs.Moves.{WhereTold};
ghost use Rattle.rtp_parts.specs.Answers.{StoppedPacking};
ghost use Rattle.omxrun.specs.Absences.{AreAbsencesTold};
ghost use Rattle.omxrun.specs.Opened.{HasOpenReason, fault_of_input, fault_of_output};
ghost use Rattle.omxrun.specs.Packets.{IsShortFile, IsWholeOrShort, PacksTo, UnpacksTo, StoppedUnpacking, fault_of_rtp, packing_done, unpacking_done};
ghost use Rattle.omxrun.specs.Turned.{IsAlone, IsTurnOutcome};

use crate::done::Done;
use omx_types::{Fault, PacketsWhy, Which};
use outside_io::{Media, Refused};
use rtp_parts::{Packed, RtpFault, Unpacked, pack, unpack};
use std::alloc::Global;
use wav_form::one_answer;

/// The two files of a command that turns one into another.
struct Opened<S, K> {
    input: S,
    output: K,
}

/// Packs a WAV file of G.711 into a file of RTP packets.
pub fn pack_file<M: Media>(
    alloc: Global,
    media: &mut M,
    input: &str,
    output: &str,
) -> Result<Done, Fault>
    ensures goes_on { GoesOn (M.outside media.old) (M.outside media.new) }
    ensures outcome { IsTurnOutcome PacksTo StoppedPacking input.now output.now (M.outside media.old) (M.outside media.new) result }
{
    one_answer();
    let mut opened = open_both(alloc, media, input, output)?;
    let packed = pack(&mut opened.input, &mut opened.output);
    close_both(media, opened, packed_outcome(packed))
}

/// Unpacks a file of RTP packets into a WAV file.
pub fn unpack_file<M: Media>(
    alloc: Global,
    media: &mut M,
    input: &str,
    output: &str,
) -> Result<Done, Fault>
    ensures goes_on { GoesOn (M.outside media.old) (M.outside media.new) }
    ensures outcome { IsTurnOutcome UnpacksTo StoppedUnpacking input.now output.now (M.outside media.old) (M.outside media.new) result }
{
    let mut opened = open_both(alloc, media, input, output)?;
    let unpacked = unpack(alloc, &mut opened.input, &mut opened.output);
    close_both(media, opened, unpacked_outcome(unpacked))
}

/// Opens the input, and then the output.
fn open_both<M: Media>(
    alloc: Global,
    media: &mut M,
    input: &str,
    output: &str,
) -> Result<Opened<M::Src, M::Snk>, Fault>
    ensures goes_on { GoesOn (M.outside media.old) (M.outside media.new) }
    ensures files { (M.outside media.new).file ≡ (M.outside media.old).file }
    ensures there { IsTrue (M.outside media.old).tells → OnOk result (IsSome ((M.outside media.old).file input.now)) }
    ensures told { IfOk result (λ opened. M.Src.told opened.input ≡ (M.outside media.old).file input.now) }
    ensures size { WhereTold ((M.outside media.old).file input.now) (λ bytes. IfOk result (λ opened. M.Src.size opened.input ≡ length bytes)) }
    ensures ends { IfOk result (λ opened. M.Src.ends opened.input ≡ (M.outside media.old).ends input.now) }
    ensures source_name { IsTrue (M.outside media.old).tells → IfOk result (λ opened. M.Src.name opened.input ≡ input.now) }
    ensures none_failed { OnOk result ((M.outside media.new).failed_reads ≡ (M.outside media.old).failed_reads) }
    ensures begun { IsTrue (M.outside media.old).tells → IfOk result (λ opened. M.Snk.told opened.output ≡ Some []) }
    ensures name { IsTrue (M.outside media.old).tells → IfOk result (λ opened. M.Snk.name opened.output ≡ output.now) }
    ensures unread { IfOk result (λ opened. M.Src.faults opened.input ≡ 0) }
    ensures unwritten { IfOk result (λ opened. M.Snk.faults opened.output ≡ 0) }
    ensures reason { IfErr result (HasOpenReason input.now output.now (M.outside media.old) (M.outside media.new)) }
    ensures alone { IfErr result (IsAlone (M.outside media.old) (M.outside media.new)) }
    ensures stand { OnOk result (CountsStand (M.outside media.old) (M.outside media.new)) }
    ensures unabsent { AreAbsencesTold (M.outside media.old) (M.outside media.new) result }
{
    // The proof learns from it that the count of failed reads is a number of 64 bits.
    let _read_faults = media.read_faults();
    let source = match media.source(alloc, input) {
        Ok(source) => source,
        Err(refused) => return Err(input_fault(refused)),
    };
    match media.sink(alloc, output) {
        Ok(sink) => Ok(Opened {
            input: source,
            output: sink,
        }),
        Err(refused) => {
            media.close_source(source);
            Err(output_fault(refused))
        }
    }
}

/// Closes both files. Where the output's closing failed, that is told of a command that was done whole or came short.
fn close_both<M: Media>(
    media: &mut M,
    opened: Opened<M::Src, M::Snk>,
    outcome: Result<Done, Fault>,
) -> Result<Done, Fault>
    ensures goes_on { GoesOn (M.outside media.old) (M.outside media.new) }
    ensures others { SameBut (M.Snk.name opened.output) (M.outside media.old) (M.outside media.new) }
    ensures absences { (M.outside media.new).absences ≡ (M.outside media.old).absences }
    ensures done { IfOk result (λ done. (outcome ≡ Ok done) × ((M.outside media.new).file (M.Snk.name opened.output) ≡ M.Snk.told opened.output)) }
    ensures front { OnErr result (((M.outside media.new).file (M.Snk.name opened.output) ≡ M.Snk.told opened.output)
        ⊎ WhereTold (M.Snk.told opened.output) (IsFrontOf ((M.outside media.new).file (M.Snk.name opened.output)))) }
    ensures fault { IfErr result (λ fault. (outcome ≡ Err fault)
        ⊎ ((fault ≡ Fault.WriteFault) × Rose (M.outside media.old).write_faults (M.outside media.new).write_faults)) }
    ensures closing { IfErr result (λ fault. (outcome ≡ Err fault) ⊎ ((fault ≡ Fault.WriteFault) × IsWholeOrShort outcome)) }
    ensures unread { M.Src.faults opened.input ≡ 0 → (M.outside media.new).read_faults ≡ (M.outside media.old).read_faults }
    ensures unwritten { M.Snk.faults opened.output ≡ 0 → IfErr result (λ fault. IsShortFile fault →
        (M.outside media.new).write_faults ≡ (M.outside media.old).write_faults) }
    ensures closed { M.Snk.faults opened.output ≡ 0 → OnOk result ((M.outside media.new).write_faults ≡ (M.outside media.old).write_faults) }
    ensures reads { (M.outside media.new).read_faults ≡ sum_of_counts (M.outside media.old).read_faults (M.Src.faults opened.input) }
    ensures names { (M.outside media.new).failed_reads ≡ with_name (M.Src.name opened.input) (M.Src.faults opened.input) (M.outside media.old).failed_reads }
    ensures writes { sum_of_counts (M.outside media.old).write_faults (M.Snk.faults opened.output) ≤ (M.outside media.new).write_faults }
{
    // The proof learns from it that both counts are numbers of 64 bits.
    let _counts = (media.read_faults(), media.write_faults());
    let Opened { input, output } = opened;
    media.close_source(input);
    match media.close_sink(output) {
        Ok(()) => outcome,
        Err(_) => match outcome {
            Ok(_) | Err(Fault::Short { .. }) => Err(Fault::WriteFault),
            Err(fault) => Err(fault),
        },
    }
}

fn packed_outcome(packed: Result<Packed, RtpFault>) -> Result<Done, Fault>
    ensures { result ≡ packing_done packed }
{
    match packed {
        Ok(counts) => Ok(Done::Packed(counts)),
        Err(fault) => Err(packets_fault(fault)),
    }
}

fn unpacked_outcome(unpacked: Result<Unpacked, RtpFault>) -> Result<Done, Fault>
    ensures { result ≡ unpacking_done unpacked }
{
    match unpacked {
        Ok(counts) => Ok(Done::Unpacked(counts)),
        Err(fault) => Err(packets_fault(fault)),
    }
}

fn packets_fault(fault: RtpFault) -> Fault
    ensures { result ≡ fault_of_rtp fault }
{
    let why = match fault {
        RtpFault::Head(fault) => {
            return Fault::BadMedia {
                which: Which::Input,
                fault,
            };
        }
        RtpFault::Read => return Fault::ReadFault,
        RtpFault::Write => return Fault::WriteFault,
        RtpFault::Short { at, size } => {
            return Fault::Short {
                which: Which::Input,
                at,
                size,
            };
        }
        RtpFault::OutOfMemory => return Fault::OutOfMemory,
        RtpFault::WrongFormat => PacketsWhy::WrongFormat,
        RtpFault::NotPackets => PacketsWhy::NotPackets,
        RtpFault::NoPackets => PacketsWhy::NoPackets,
        RtpFault::TooLong => PacketsWhy::TooLong,
    };
    Fault::Packets { why }
}

fn input_fault(refused: Refused) -> Fault
    ensures { result ≡ fault_of_input refused }
{
    match refused {
        Refused::Absent => Fault::Absent(Which::Input),
        Refused::Failed => Fault::ReadFault,
        Refused::OutOfMemory => Fault::OutOfMemory,
    }
}

fn output_fault(refused: Refused) -> Fault
    ensures { result ≡ fault_of_output refused }
{
    match refused {
        Refused::Absent => Fault::Absent(Which::Output),
        Refused::Failed => Fault::WriteFault,
        Refused::OutOfMemory => Fault::OutOfMemory,
    }
}
