//! Why a play stops before its end.

use omx_types::PartFault;
use play_course::RunFault;

/// A step that failed.
#[derive(Clone, Copy)]
pub struct Failure {
    /// The place of the part's component in the script, from 0.
    pub component: u32,
    pub fault: PartFault,
}

/// The first fault of a run ends it.
#[derive(Clone, Copy)]
pub enum Stop {
    Failed(Failure),
    /// The log has no room for an act.
    OutOfMemory,
}

impl From<Stop> for RunFault {
    ghost use Rattle.std.specs.Prelude.{◌≡◌};
    ghost use Rattle.play_run.specs.Faults.{fault_of};

    ghost from_gives = { λ stop fault. fault ≡ fault_of stop };

    fn from(stop: Stop) -> RunFault {
        match stop {
            Stop::Failed(failure) => RunFault::of_step(failure.component, failure.fault),
            Stop::OutOfMemory => RunFault::OutOfMemory,
        }
    }
}
