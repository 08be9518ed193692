//! The links of a script by the places of their components, and the ports that none of them names.

ghost use Rattle.std.specs.Prelude.{◌≡◌, ◌≤◌, ◌<◌, length, IfOk, IfErr, IfSome, IfNone};
ghost use Rattle.std.specs.List.{list_any};
ghost use Rattle.play_forms.specs.Joints.{AllJoin, AllLinked, IsLinked, can_join, is_joint, is_linked, joint_of, joints_of, names_port, place_named, shares_port};
ghost use Rattle.play_forms.specs.Parts.{kind_of};
ghost use Rattle.stream_plan.specs.Faults.{ForTwice, ForOpen, IsFirstOpen};

use crate::kinds::{has_input, has_output, kind_of, ports};
use act_text::Name;
use play_forms::{Joint, PlanFault};
use script_lang::{LinkLine, PartLine};
use std::alloc::Global;

fn place_named(parts: &[PartLine], name: &Name) -> u32
    requires { length parts.now ≤ 32 }
    ensures { result ≡ place_named parts.now name.now }
{
    for (place, part) in parts.iter().enumerate() {
        if part.name.as_bytes() == name.as_bytes() {
            return place as u32;
        }
    }
    parts.len() as u32
}

fn joint_of(parts: &[PartLine], link: &LinkLine) -> Joint
    requires { length parts.now ≤ 32 }
    ensures { result ≡ joint_of parts.now link.now }
{
    Joint {
        line: link.line,
        giver: place_named(parts, &link.output.component),
        output: link.output.index,
        taker: place_named(parts, &link.input.component),
        input: link.input.index,
        count: link.count,
        size: link.size,
    }
}

/// Whether it joins an output to an input.
fn is_joint(parts: &[PartLine], joint: &Joint) -> bool
    ensures { result ≡ is_joint parts.now joint.now }
{
    let gives = match parts.get(joint.giver as usize) {
        Some(part) => has_output(joint.output, kind_of(&part.form)),
        None => false,
    };
    let takes = match parts.get(joint.taker as usize) {
        Some(part) => has_input(joint.input, kind_of(&part.form)),
        None => false,
    };
    gives && takes
}

fn shares_port(joint: &Joint, other: &Joint) -> bool
    ensures { result ≡ shares_port joint.now other.now }
{
    (other.giver == joint.giver && other.output == joint.output)
        || (other.taker == joint.taker && other.input == joint.input)
}

/// Whether an earlier link names one of its ports.
fn is_taken(earlier: &[Joint], joint: &Joint) -> bool
    ensures { result ≡ list_any (shares_port joint.now) earlier.now }
{
    earlier.iter().any(|other| shares_port(joint, other))
}

fn can_join(parts: &[PartLine], earlier: &[Joint], joint: &Joint) -> bool
    ensures { result ≡ can_join parts.now earlier.now joint.now }
{
    is_joint(parts, joint) && !is_taken(earlier, joint)
}

/// The links, up to the first that can't be.
pub fn joints_of(
    alloc: Global,
    parts: &[PartLine],
    links: &[LinkLine],
) -> Result<Vec<Joint>, PlanFault>
    requires { length parts.now ≤ 32 }
    ensures joints { IfOk result (λ joints. joints.items ≡ joints_of parts.now links.now) }
    ensures joined { IfOk result (λ joints. AllJoin parts.now joints.items) }
    ensures twice { IfErr result (ForTwice parts.now (joints_of parts.now links.now)) }
{
    let mut joints = Vec::new(alloc);
    for link in links {
        let joint = joint_of(parts, link);
        if !can_join(parts, joints.as_slice(), &joint) {
            return Err(PlanFault::PortTwice(joint.line));
        }
        joints.push(joint)?;
    }
    Ok(joints)
}

fn names_port(place: u32, port: u32, joint: &Joint) -> bool
    ensures { result ≡ names_port place port joint.now }
{
    (joint.giver == place && joint.output == port) || (joint.taker == place && joint.input == port)
}

fn is_linked(joints: &[Joint], place: u32, port: u32) -> bool
    ensures { result ≡ is_linked joints.now place port }
{
    joints.iter().any(|joint| names_port(place, port, joint))
}

/// The least port of a component that isn't linked.
fn open_port(joints: &[Joint], place: u32, part: &PartLine) -> Option<u32>
    ensures open { IfSome result (IsFirstOpen joints.now place part.now) }
    ensures none { IfNone result (IsLinked joints.now place part.now) }
{
    for port in 0..ports(kind_of(&part.form)) {
        if !is_linked(joints, place, port as u32) {
            return Some(port as u32);
        }
    }
    None
}

/// Refuses the first component with a port that isn't linked.
pub fn check_ports(parts: &[PartLine], joints: &[Joint]) -> Result<(), PlanFault>
    requires { length parts.now ≤ 32 }
    ensures linked { IfOk result (λ _. AllLinked parts.now joints.now) }
    ensures open { IfErr result (ForOpen parts.now joints.now) }
{
    for (place, part) in parts.iter().enumerate() {
        if let Some(port) = open_port(joints, place as u32, part) {
            return Err(PlanFault::OpenPort(part.line, port));
        }
    }
    Ok(())
}
