//! Why a play by workers wasn't done whole.

ghost use Rattle.std.specs.Prelude.{◌≡◌, ◌<◌, ◌^◌, IfSome};
ghost use Rattle.worker_course.specs.Reasons.{reason_of};

use play_course::RunFault;
use play_worker::Failure;

/// By the step that failed, or else for want of memory.
pub(crate) fn fault_of(worst: Option<Failure>) -> RunFault
    requires { IfSome worst (λ failure. failure.component.generation < 2 ^ 32) }
    ensures { result ≡ reason_of worst }
{
    match worst {
        Some(failure) => RunFault::of_step(failure.component.generation as u32, failure.fault),
        None => RunFault::OutOfMemory,
    }
}
