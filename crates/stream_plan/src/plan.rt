//! The plan of a play.

ghost use Rattle.std.specs.Prelude.{◌≡◌, ◌<◌, ◌≤◌, length, true, IfOk, IfErr, OnOk};
ghost use Rattle.script_lang.specs.Scripts.{IsOfCommand};
ghost use Rattle.play_forms.specs.Plans.{IsFaultOfScript, IsFit, IsFitFault, IsFitted, IsPlanOf, IsPlanOfScript, IsShapeFault, IsValid};
ghost use Rattle.play_forms.specs.Joints.{joints_of};

use crate::copying::parts_copy;
use crate::counting::{check_headers, units_needed};
use crate::fitting::misfit;
use crate::flowing::{NO_FLOW, Scene, set_flows, set_frames};
use crate::joining::{check_ports, joints_of};
use crate::placing::order_of;
use play_forms::{Flow, Joint, PlanFault};
use script_lang::{LinkLine, PartLine, Script};
use std::alloc::Global;
use std::marker::Model;
use wav_form::WavHead;

/// A play whose every port has its link, with its components in an order in which each stands behind those that it takes from.
#[derive(Drop)]
pub struct Plan {
    units: u32,
    parts: Vec<PartLine>,
    joints: Vec<Joint>,
    order: Vec<u32>,
    flows: Vec<Flow>,
    frames: Vec<u64>,
}

impl Model for Plan {
    ghost use Rattle.play_forms.specs.Plans.{PlanValue};

    ghost Value = { PlanValue };

    ghost view = { λ plan. record {
      units = plan.units;
      parts = plan.parts.items;
      joints = plan.joints.items;
      order = plan.order.items;
      flows = plan.flows.items;
      frames = plan.frames.items;
    } };
}

impl Plan {
    /// The plan of a play's script. What goes through its links is known once `fit` has seen the heads of its files.
    pub fn build(alloc: Global, script: &Script) -> Result<Plan, PlanFault>
        requires { IsOfCommand true script.now }
        ensures plan { IfOk result (IsPlanOfScript script.now) }
        ensures valid { IfOk result IsValid }
        ensures refused { IfErr result (IsFaultOfScript script.now) }
    {
        match script {
            Script::Play {
                units,
                parts,
                links,
            } => plan_of(alloc, *units, parts.as_slice(), links.as_slice()),
            Script::Trace { units: _, lines: _ } => unreachable!(),
        }
    }

    /// Takes in the heads of the sources' files, in script order. The plan then has the format of every port and the frames of
    /// every component, also where a link doesn't fit.
    pub fn fit(&mut self, heads: &[WavHead]) -> Result<(), PlanFault>
        requires { IsValid self.old }
        ensures fitted { IsFitted self.old heads.now self.new }
        ensures valid { IsValid self.new }
        ensures fits { OnOk result (IsFit self.new) }
        ensures misfit { IfErr result (IsFitFault self.new) }
    {
        let scene = Scene {
            parts: self.parts.as_slice(),
            joints: self.joints.as_slice(),
            heads,
        };
        set_flows(scene, self.order.as_slice(), self.flows.as_mut_slice());
        set_frames(scene, self.flows.as_slice(), self.frames.as_mut_slice());
        match misfit(
            self.parts.as_slice(),
            self.joints.as_slice(),
            self.order.as_slice(),
            self.flows.as_slice(),
        ) {
            Some(fault) => Err(fault),
            None => Ok(()),
        }
    }

    /// The units of all components together.
    pub fn units(&self) -> u32
        ensures { result ≡ self.now.units }
    {
        self.units
    }

    /// The components, in script order.
    pub fn parts(&self) -> &[PartLine]
        ensures { result.now ≡ self.now.parts }
    {
        self.parts.as_slice()
    }

    /// The links, in script order.
    pub fn joints(&self) -> &[Joint]
        ensures { result.now ≡ self.now.joints }
    {
        self.joints.as_slice()
    }

    /// The components by their places, each behind those that it takes from.
    pub fn order(&self) -> &[u32]
        ensures { result.now ≡ self.now.order }
    {
        self.order.as_slice()
    }

    /// What goes through each link.
    pub fn flows(&self) -> &[Flow]
        ensures { result.now ≡ self.now.flows }
    {
        self.flows.as_slice()
    }

    /// The frames that each component does, in script order.
    pub fn frames(&self) -> &[u64]
        ensures { result.now ≡ self.now.frames }
    {
        self.frames.as_slice()
    }
}

fn plan_of(
    alloc: Global,
    units: u32,
    parts: &[PartLine],
    links: &[LinkLine],
) -> Result<Plan, PlanFault>
    requires { length parts.now ≤ 32 }
    ensures plan { IfOk result (IsPlanOf units parts.now links.now) }
    ensures valid { IfOk result IsValid }
    ensures refused { IfErr result (IsShapeFault units parts.now (joints_of parts.now links.now)) }
{
    let joints = joints_of(alloc, parts, links)?;
    check_ports(parts, joints.as_slice())?;
    check_headers(joints.as_slice())?;
    let order = order_of(alloc, parts, joints.as_slice())?;
    let need = units_needed(parts);
    if units < need {
        return Err(PlanFault::Units { have: units, need });
    }
    let flows = vec![in alloc; NO_FLOW; joints.len()]?;
    let frames = vec![in alloc; 0u64; parts.len()]?;
    let parts = parts_copy(alloc, parts)?;
    Ok(Plan {
        units,
        parts,
        joints,
        order,
        flows,
        frames,
    })
}
