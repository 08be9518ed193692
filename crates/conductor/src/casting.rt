//! What a conductor takes from a plan.

ghost use Rattle.std.specs.Prelude.{◌≡◌, IfOk, map, length, ◌≤◌};
ghost use Rattle.std.specs.Option.{option_copied};
ghost use Rattle.script_lang.specs.declared.play_line.PartLine.{PartLine};
ghost use Rattle.conductor.specs.Casting.{is_sink, late_links, link_from, unchanged};

use crate::{LateLink, OutOfMemory};
use play_forms::Joint;
use script_lang::{PartForm, PartLine};
use std::alloc::Global;

fn is_sink(form: &PartForm) -> bool
    ensures { result ≡ is_sink form.now }
{
    matches!(form, PartForm::Sink(_))
}

/// Which components are sinks, in script order.
pub fn sinks_of(alloc: Global, parts: &[PartLine]) -> Result<Vec<bool>, OutOfMemory>
    ensures { IfOk result (λ sinks. sinks.items ≡ map (λ (part : PartLine). is_sink part.form) parts.now) }
{
    let mut sinks = Vec::with_capacity(alloc, parts.len())?;
    for part in parts {
        sinks.push(is_sink(&part.form))?;
    }
    Ok(sinks)
}

/// The link that a component gives into.
fn link_from(joints: &[Joint], place: u32) -> Option<&Joint>
    ensures { option_copied result ≡ link_from joints.now place }
{
    joints.iter().find(|joint| joint.giver == place)
}

/// The links of the late sources, in script order of these.
pub fn late_links(
    alloc: Global,
    parts: &[PartLine],
    joints: &[Joint],
) -> Result<Vec<LateLink>, OutOfMemory>
    requires { length parts.now ≤ 32 }
    ensures { IfOk result (λ lates. lates.items ≡ late_links joints.now 0 parts.now) }
{
    let mut lates = Vec::new(alloc);
    for (place, part) in parts.iter().enumerate() {
        if let PartForm::Late(_) = part.form {
            if let Some(joint) = link_from(joints, place as u32) {
                lates.push(unchanged(place as u32, joint))?;
            }
        }
    }
    Ok(lates)
}

/// The link of a late source, of which nothing was changed.
fn unchanged(source: u32, joint: &Joint) -> LateLink
    ensures { result ≡ unchanged source joint.now }
{
    LateLink {
        source,
        taker: joint.taker,
        input: joint.input,
        steps: 0,
        output_disabled: false,
        input_disabled: false,
        output_enabled: false,
        input_enabled: false,
    }
}
