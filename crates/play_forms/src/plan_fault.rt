//! The faults of planning: of components and links, units, formats and header sizes, and want of memory.

ghost use Rattle.std.specs.Prelude.{◌≡◌};

use omx_types::{Fault, ScriptWhy};
use std::alloc::{AllocError, AllocFailed};

/// Why a script makes no plan. A number alone is that of a script line.
#[derive(Clone, Copy, Debug, PartialEq, Eq)]
pub enum PlanFault {
    /// A component can't be placed, since what it takes comes round to it.
    Cycle(u32),
    /// The line of a component, and its port that no link names.
    OpenPort(u32, u32),
    /// A link names a port that isn't there, has the other direction, or was linked before.
    PortTwice(u32),
    /// The headers of the links up to this one are too many.
    TooMany(u32),
    Units { have: u32, need: u32 },
    /// The input doesn't take the output's format.
    Wrong(u32),
    /// A header holds no frame.
    Small(u32),
    /// An input of a mixer has another format than its first.
    Differ(u32),
    OutOfMemory,
}

impl From<AllocError> for PlanFault {
    ghost use Rattle.play_forms.specs.declared.plan_fault.PlanFault.TheVariants.{OutOfMemory};

    ghost from_gives = { λ _ fault. fault ≡ OutOfMemory };

    fn from(_error: AllocError) -> PlanFault {
        PlanFault::OutOfMemory
    }
}

impl<T: Drop> From<AllocFailed<T>> for PlanFault {
    ghost use Rattle.play_forms.specs.declared.plan_fault.PlanFault.TheVariants.{OutOfMemory};

    ghost from_gives = { λ _ fault. fault ≡ OutOfMemory };

    fn from(_error: AllocFailed<T>) -> PlanFault {
        PlanFault::OutOfMemory
    }
}

impl From<PlanFault> for Fault {
    ghost use Rattle.play_forms.specs.Faults.{fault_of_plan};

    ghost from_gives = { λ why fault. fault ≡ fault_of_plan why };

    fn from(why: PlanFault) -> Fault {
        let (line, why) = match why {
            PlanFault::Units { have, need } => return Fault::Units { have, need },
            PlanFault::OutOfMemory => return Fault::OutOfMemory,
            PlanFault::Cycle(line) => (line, ScriptWhy::Cycle),
            PlanFault::OpenPort(line, _) => (line, ScriptWhy::OpenPort),
            PlanFault::PortTwice(line) => (line, ScriptWhy::PortTwice),
            PlanFault::TooMany(line) => (line, ScriptWhy::TooManyBlocks),
            PlanFault::Wrong(line) => (line, ScriptWhy::Wrong),
            PlanFault::Small(line) => (line, ScriptWhy::Small),
            PlanFault::Differ(line) => (line, ScriptWhy::Differ),
        };
        Fault::Script { line, why }
    }
}
