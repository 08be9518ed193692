//! The command `make`: inputs for a play are made from a seed.

ghost use Rattle.std.specs.Prelude.{◌≤◌};
ghost use Rattle.outside_io.specs.Files.{GoesOn};
ghost use Rattle.omxrun.specs.Making.{IsMakeOutcome};

use crate::done::Done;
use load_gen::make;
use omx_types::Fault;
use outside_io::Media;
use std::alloc::Global;

/// Makes two WAV files and the script that plays them.
pub fn make_files<M: Media>(
    alloc: Global,
    media: &mut M,
    seed: u64,
    frames: u64,
    folder: &str,
) -> Result<Done, Fault>
    requires { frames ≤ 33000000 }
    ensures goes_on { GoesOn (M.outside media.old) (M.outside media.new) }
    ensures outcome { IsMakeOutcome seed frames folder.now (M.outside media.old) (M.outside media.new) result }
{
    make(alloc, seed, frames, folder, media)?;
    Ok(Done::Made { frames })
}
