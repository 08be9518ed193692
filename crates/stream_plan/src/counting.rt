//! The sums that a plan must keep to.

ghost use Rattle.std.specs.Prelude.{◌≡◌, ◌≤◌, ◌*◌, length, IfOk, IfErr};
ghost use Rattle.play_forms.specs.Joints.{headers_of};
ghost use Rattle.play_forms.specs.Parts.{units_needed};
ghost use Rattle.stream_plan.specs.Faults.{ForTooMany};

use crate::kinds::{kind_of, units};
use omx_types::BLOCKS;
use play_forms::{Joint, PlanFault};
use script_lang::PartLine;

/// The most headers of a play.
const MOST_HEADERS: u64 = BLOCKS as u64;

/// Refuses the first link up to which there are too many headers.
pub fn check_headers(joints: &[Joint]) -> Result<(), PlanFault>
    ensures few { IfOk result (λ _. headers_of joints.now ≤ 1024) }
    ensures many { IfErr result (ForTooMany joints.now) }
{
    let mut headers = 0u64;
    for joint in joints {
        headers += u64::from(joint.count);
        if headers > MOST_HEADERS {
            return Err(PlanFault::TooMany(joint.line));
        }
    }
    Ok(())
}

/// The units of all components.
pub fn units_needed(parts: &[PartLine]) -> u32
    requires { length parts.now ≤ 32 }
    ensures { result ≡ units_needed parts.now }
{
    let mut needed = 0;
    for part in parts {
        needed += units(kind_of(&part.form));
    }
    needed
}
