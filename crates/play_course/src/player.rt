//! Who plays a play whose files are open.

ghost use Rattle.std.specs.Prelude.{◌≡◌};
ghost use Rattle.play_course.specs.Failing.{fault_at};

use audio_parts::PartFile;
use omx_types::PartFault;
use outside_io::{Sink, Source};
use play_log::LogText;
use std::alloc::{AllocError, Global};
use stream_plan::Plan;

/// Why the run of a play failed.
#[derive(Clone, Copy, Debug, PartialEq, Eq)]
pub enum RunFault {
    OutOfMemory,
    Read,
    Write,
    /// The source of the component at that place gave nothing at `at`, below its `size`.
    Short { place: u32, at: u64, size: u64 },
}

impl RunFault {
    /// What a fault of a step of the component at the place is for the run.
    pub fn of_step(place: u32, fault: PartFault) -> RunFault
        ensures { result ≡ fault_at place fault }
    {
        match fault {
            PartFault::Read => RunFault::Read,
            PartFault::Write => RunFault::Write,
            PartFault::Short { at, size } => RunFault::Short { place, at, size },
        }
    }
}

impl From<AllocError> for RunFault {
    ghost use Rattle.play_course.specs.declared.player.RunFault.TheVariants.{OutOfMemory};

    ghost from_gives = { λ _ fault. fault ≡ OutOfMemory };

    fn from(_error: AllocError) -> RunFault {
        RunFault::OutOfMemory
    }
}

/// Runs a play from its open files to its end on the thread that calls it, or until a part fails or memory is wanting. In each case each
/// file comes back to its place.
pub trait Player<S: Source, K: Sink> {
    ghost use Rattle.std.specs.Prelude.{IfErr, IfOk, OnErr};
    ghost use Rattle.play_plan_laws.specs.Assemblies.{IsReady, PlayFiles};
    ghost use Rattle.play_files.specs.Seen.{file_seen, files_seen};
    ghost use Rattle.play_course.specs.Failing.{LeavesBehind};
    ghost use Rattle.play_course.specs.Running.{AreSameFiles, IsRunCause};
    ghost use Rattle.play_course.specs.Players.{AreFilesOf, CanPlay, IsFailed, IsPlayedWhole};

    /// Plays the plan with its files, and answers its log. On a fault there is a world that the run left; where several
    /// steps failed, whoever made them and in whichever order, a failed read is told first, then a failed write, then a short source,
    /// that of the component first in the script.
    fn run(
        &mut self,
        alloc: Global,
        plan: Plan,
        files: &mut [Option<PartFile<S, K>>],
    ) -> Result<LogText, RunFault>
        requires ready { CanPlay plan (files_seen (file_seen S.Source K.Sink) files.old) }
        ensures same { AreSameFiles (files_seen (file_seen S.Source K.Sink) files.old)
            (files_seen (file_seen S.Source K.Sink) files.new) }
        ensures whole { IfOk result (λ text. (given : PlayFiles) → IsReady plan given
            → AreFilesOf plan given (files_seen (file_seen S.Source K.Sink) files.old)
            → IsPlayedWhole 0 plan given (files_seen (file_seen S.Source K.Sink) files.old)
            (files_seen (file_seen S.Source K.Sink) files.new) text) }
        ensures failed { OnErr result ((given : PlayFiles) → IsReady plan given
            → AreFilesOf plan given (files_seen (file_seen S.Source K.Sink) files.old)
            → IsFailed plan given (files_seen (file_seen S.Source K.Sink) files.old)
            (files_seen (file_seen S.Source K.Sink) files.new)) }
        ensures cause { IfErr result (IsRunCause (files_seen (file_seen S.Source K.Sink) files.old)
            (files_seen (file_seen S.Source K.Sink) files.new)) }
        ensures left { IfErr result (λ fault. (given : PlayFiles) → IsReady plan given
            → AreFilesOf plan given (files_seen (file_seen S.Source K.Sink) files.old)
            → LeavesBehind plan given (files_seen (file_seen S.Source K.Sink) files.old)
            (files_seen (file_seen S.Source K.Sink) files.new) fault) };
}
