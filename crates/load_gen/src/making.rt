//! The two WAV files and the script are written to a folder, or a fault tells why one isn't.

ghost use Rattle.std.specs.Prelude.{◌≡◌, ◌≢◌, ◌≤◌, Err, IfErr, OnOk, OnErr, IsTrue, Some};
ghost use Rattle.outside_io.specs.Files.{GoesOn, TellsAbsences};
ghost use Rattle.load_gen.specs.Made.{AreMade, ArePartlyMade, Makes, OthersAreKept, HasReason, fault_at};
ghost use Rattle.load_gen.specs.Samples.{wav_from};
ghost use Rattle.load_gen.specs.Script.{in_folder, script_name, script};

use crate::samples::write_wav;
use crate::script::{name_in, script_of};
use omx_types::{Fault, Which};
use outside_io::{Media, Refused, write_whole};
use std::alloc::Global;

/// Makes the two WAV files of `frames` frames in `folder`, and the script that plays them. Memory doesn't grow with
/// the frames.
pub fn make<M: Media>(
    alloc: Global,
    seed: u64,
    frames: u64,
    folder: &str,
    media: &mut M,
) -> Result<(), Fault>
    requires { frames ≤ 33000000 }
    ensures made { IsTrue (M.outside media.old).tells → OnOk result (AreMade seed frames folder.now (M.outside media.new)) }
    ensures partly { IsTrue (M.outside media.old).tells →
        OnErr result (ArePartlyMade seed frames folder.now (M.outside media.old) (M.outside media.new)) }
    ensures others { IsTrue (M.outside media.old).tells → OthersAreKept folder.now (M.outside media.old) (M.outside media.new) }
    ensures goes_on { GoesOn (M.outside media.old) (M.outside media.new) }
    ensures reason { IfErr result (HasReason folder.now (M.outside media.old) (M.outside media.new)) }
    ensures read_faults { (M.outside media.new).read_faults ≡ (M.outside media.old).read_faults }
    ensures write_stays { result ≢ Err Fault.WriteFault → (M.outside media.new).write_faults ≡ (M.outside media.old).write_faults }
    ensures unabsent { TellsAbsences Fault.Absent (M.outside media.old) (M.outside media.new) result }
{
    match make_wav(alloc, media, folder, "a.wav", seed, frames) {
        Ok(()) => {}
        Err(refused) => return Err(fault_of(refused, 1)),
    }
    match make_wav(alloc, media, folder, "b.wav", seed.wrapping_add(1), frames) {
        Ok(()) => {}
        Err(refused) => return Err(fault_of(refused, 2)),
    }
    match make_script(alloc, media, folder) {
        Ok(()) => Ok(()),
        Err(refused) => Err(fault_of(refused, 3)),
    }
}

/// Makes the WAV file of that name in a folder, which begins with the number `x`.
fn make_wav<M: Media>(
    alloc: Global,
    media: &mut M,
    folder: &str,
    name: &str,
    x: u64,
    frames: u64,
) -> Result<(), Refused>
    requires { frames ≤ 33000000 }
    ensures { Makes (in_folder folder.now name.now) (wav_from x frames) (M.outside media.old) (M.outside media.new) result }
{
    match name_in(alloc, folder, name) {
        Ok(name) => write_wav_file(alloc, media, name.as_str(), x, frames),
        Err(_) => Err(Refused::OutOfMemory),
    }
}

/// Makes the script in a folder.
fn make_script<M: Media>(alloc: Global, media: &mut M, folder: &str) -> Result<(), Refused>
    ensures { Makes (script_name folder.now) (script folder.now) (M.outside media.old) (M.outside media.new) result }
{
    let Ok(text) = script_of(alloc, folder) else {
        return Err(Refused::OutOfMemory);
    };
    match name_in(alloc, folder, "mix.omx") {
        Ok(name) => write_whole(alloc, media, name.as_str(), text.as_bytes()),
        Err(_) => Err(Refused::OutOfMemory),
    }
}

/// Writes the WAV file that begins with the number `x`, and closes it.
fn write_wav_file<M: Media>(
    alloc: Global,
    media: &mut M,
    name: &str,
    x: u64,
    frames: u64,
) -> Result<(), Refused>
    requires { frames ≤ 33000000 }
    ensures { Makes name.now (wav_from x frames) (M.outside media.old) (M.outside media.new) result }
{
    let mut sink = media.sink(alloc, name)?;
    let written = write_wav(&mut sink, x, frames);
    let closed = media.close_sink(sink);
    match written {
        Err(_) => Err(Refused::Failed),
        Ok(()) => match closed {
            Ok(()) => Ok(()),
            Err(_) => Err(Refused::Failed),
        },
    }
}

/// The fault of the made file of that number.
fn fault_of(refused: Refused, number: u32) -> Fault
    ensures { result ≡ fault_at number refused }
{
    match refused {
        Refused::Absent => Fault::Absent(Which::Made(number)),
        Refused::Failed => Fault::WriteFault,
        Refused::OutOfMemory => Fault::OutOfMemory,
    }
}
