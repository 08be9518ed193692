//! The log is told of the acts that were accepted.

ghost use Rattle.std.specs.Prelude.{◌≡◌, ◌<◌, ◌≤◌, ◌↔◌, true, false, length};
ghost use Rattle.play_run.specs.Recording.{IsNameAt, IsTold};

use crate::playing::Playing;
use act_text::{ActText, Name, PortName};
use outside_io::{Sink, Source};
use play_log::Log;
use stream_plan::Plan;

/// The name of the component at the place in the script.
pub(crate) fn name_at(plan: &Plan, place: u32) -> Name
    requires { place < length plan.now.parts }
    ensures { IsNameAt plan.now.parts place result }
{
    plan.parts()[place as usize].name
}

/// The component's port.
pub(crate) fn port_at(plan: &Plan, place: u32, index: u32) -> PortName
    requires { place < length plan.now.parts }
    ensures component { IsNameAt plan.now.parts place result.component }
    ensures index { result.index ≡ index }
{
    PortName {
        component: name_at(plan, place),
        index,
    }
}

/// The log gets the line of an act of this thread. At a slot the words are taken again that were told there before. Where memory is
/// wanting the log says so, and the play stops before its next step.
pub(crate) fn log_act(log: &mut Log, slot: Option<usize>, said: &ActText)
    ensures { IsTold log.old said.now log.new }
{
    // A line that has no memory leaves the log broken, as it says itself.
    let _ = log.entry(0, slot, said);
}

/// Where an act that comes again and again is told: its words are made once.
pub(crate) enum Slot {
    Claimed(u32),
    Finished(u32),
    Supplied(u32),
    Released(u32),
    HandedOver(u32),
    HandedBack(u32),
}

/// The slots of the components: two each, and there are 32 of them at most.
const COMPONENT_SLOTS: usize = 64;

/// How many slots a play has: behind those of the components four for each link.
pub(crate) fn slots_of(plan: &Plan) -> usize
    requires { length plan.now.joints ≤ 1024 }
{
    COMPONENT_SLOTS + 4 * plan.joints().len()
}

impl Slot {
    /// Its number.
    pub(crate) fn number(self) -> Option<usize> {
        Some(match self {
            Slot::Claimed(component) => 2 * component as usize,
            Slot::Finished(component) => 2 * component as usize + 1,
            Slot::Supplied(link) => COMPONENT_SLOTS + 4 * link as usize,
            Slot::Released(link) => COMPONENT_SLOTS + 4 * link as usize + 1,
            Slot::HandedOver(link) => COMPONENT_SLOTS + 4 * link as usize + 2,
            Slot::HandedBack(link) => COMPONENT_SLOTS + 4 * link as usize + 3,
        })
    }
}

impl<S: Source, K: Sink> Playing<S, K> {
    /// Whether the log has the line of each act.
    pub(crate) fn is_logged(&self) -> bool
        ensures { result ≡ true ↔ self.now.log.broken ≡ false }
    {
        self.log.is_whole()
    }
}
