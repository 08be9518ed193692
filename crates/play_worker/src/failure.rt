//! Which failed step of several is told.

ghost use Rattle.std.specs.Prelude.{◌≡◌};
ghost use Rattle.play_worker.specs.Failing.{worse, first_of, is_fault_first};

use omx_types::{Handle, PartFault};

/// A step that failed.
#[derive(Clone, Copy)]
pub struct Failure {
    /// The component whose step it was.
    pub component: Handle,
    pub fault: PartFault,
}

/// Whether the first of the two is told, by the numbers of their components: a failed read before a failed write, and that before a short
/// source; of these the one of the least number.
fn is_fault_first(number: u64, other_number: u64, one: PartFault, other: PartFault) -> bool
    ensures { result ≡ is_fault_first number other_number one other }
{
    match one {
        PartFault::Read => true,
        PartFault::Write => match other {
            PartFault::Read => false,
            PartFault::Write => true,
            PartFault::Short { at: _, size: _ } => true,
        },
        PartFault::Short { at: _, size: _ } => match other {
            PartFault::Read => false,
            PartFault::Write => false,
            PartFault::Short { at: _, size: _ } => number <= other_number,
        },
    }
}

impl Failure {
    /// Which of the two is told.
    pub fn first_of(one: Failure, other: Failure) -> Failure
        ensures { result ≡ first_of one other }
    {
        let (first, second) = (one.component.generation, other.component.generation);
        if is_fault_first(first, second, one.fault, other.fault) {
            one
        } else {
            other
        }
    }

    /// Which is told of those before and of one more, where there is one.
    pub fn worse(worst: Option<Failure>, next: Option<Failure>) -> Option<Failure>
        ensures { result ≡ worse worst next }
    {
        match (worst, next) {
            (Some(one), Some(other)) => Some(Failure::first_of(one, other)),
            (Some(one), None) => Some(one),
            (None, next) => next,
        }
    }
}
