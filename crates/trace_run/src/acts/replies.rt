//! The replies of calls, acts, grants and losses, with components and ports by their names.

ghost use Rattle.std.specs.Prelude.{◌≡◌, List, Some, IfOk, IsSome};
ghost use Rattle.il_machine.specs.Acts as acts;
ghost use Rattle.trace_run.specs.Naming.{Names, NamedHeader};
ghost use Rattle.trace_run.specs.Replying.{Plain, printed, acted_reply, granted_reply, preempted_reply, named_why};
ghost use Rattle.trace_run.specs.Standing.{IsNamedAnswer};

use crate::names::{NamedComponent, component_name, port_name};
use act_text::{TextReply, TextWhy};
use il_machine::{Acted, Granted, Preempted, Why};
use omx_types::OmxError;

/// The reply of a call that says no more than that it was done.
pub fn plain_reply(done: Result<(), OmxError>) -> TextReply
    ensures { (names : Names) → printed names (acts.Plain done) ≡ Some (Plain result) }
{
    match done {
        Ok(()) => TextReply::Done,
        Err(error) => TextReply::Error(error),
    }
}

/// The reply of a component's act, with its ports by name.
pub fn acted_reply(components: &[NamedComponent], acted: Acted) -> TextReply
    requires { IsNamedAnswer components.now acted }
    ensures { acted_reply components.now acted ≡ Some (Plain result) }
{
    match acted {
        Acted::Did => TextReply::Did,
        Acted::Idle(why) => TextReply::Idle(named_why(components, why)),
    }
}

/// The reply of an act of a component.
pub fn answer_reply(components: &[NamedComponent], answer: Result<Acted, OmxError>) -> TextReply
    requires { IfOk answer (IsNamedAnswer components.now) }
    ensures { (headers : List NamedHeader) → printed (record { components = components.now; headers = headers }) (acts.Acted answer) ≡ Some (Plain result) }
{
    match answer {
        Ok(acted) => acted_reply(components, acted),
        Err(error) => TextReply::Error(error),
    }
}

/// The reply of a grant, with the component by its name.
pub fn granted_reply(components: &[NamedComponent], answer: Granted) -> TextReply
    requires { IsSome (granted_reply components.now answer) }
    ensures { granted_reply components.now answer ≡ Some (Plain result) }
{
    match answer {
        Granted::Granted(waiter) => match component_name(components, waiter.generation) {
            Some(component) => TextReply::Granted(component),
            None => unreachable!(),
        },
        Granted::Idle(why) => TextReply::Idle(named_why(components, why)),
    }
}

/// The reply of a loss, with the component by its name.
pub fn preempted_reply(components: &[NamedComponent], answer: Preempted) -> TextReply
    requires { IsSome (preempted_reply components.now answer) }
    ensures { preempted_reply components.now answer ≡ Some (Plain result) }
{
    match answer {
        Preempted::Victim(victim) => match component_name(components, victim.generation) {
            Some(component) => TextReply::Victim(component),
            None => unreachable!(),
        },
        Preempted::Idle(why) => TextReply::Idle(named_why(components, why)),
    }
}

/// A why with its port by the name of the component, which has one.
fn named_why(components: &[NamedComponent], why: Why) -> TextWhy
    requires { IsSome (named_why components.now why) }
    ensures { named_why components.now why ≡ Some result }
{
    match why {
        Why::NoCommand => TextWhy::NoCommand,
        Why::Pending(state) => TextWhy::Pending(state),
        Why::PortBusy(port) => TextWhy::PortBusy(port),
        Why::NotSupplier => TextWhy::NotSupplier,
        Why::IsSupplier => TextWhy::IsSupplier,
        Why::NotAccepting(port) => match port_name(components, port) {
            Some(port) => TextWhy::NotAccepting(port),
            None => unreachable!(),
        },
        Why::NoBlock => TextWhy::NoBlock,
        Why::NoNumber => TextWhy::NoNumber,
        Why::NotLeaving => TextWhy::NotLeaving,
        Why::NoHeader => TextWhy::NoHeader,
        Why::NotRunning(port) => match port_name(components, port) {
            Some(port) => TextWhy::NotRunning(port),
            None => unreachable!(),
        },
        Why::NoWaiter => TextWhy::NoWaiter,
        Why::Short { have, need } => TextWhy::Short { have, need },
        Why::Enough { have, need } => TextWhy::Enough { have, need },
        Why::NoVictim => TextWhy::NoVictim,
        Why::Events { room, need } => TextWhy::Events { room, need },
    }
}
