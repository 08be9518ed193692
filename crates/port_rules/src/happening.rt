//! The first due thing of a component happens.

ghost use Rattle.std.specs.Prelude.{◌≡◌, ◌<◌, true, false, IsSome, IsSomeAnd, Some, is_some};
ghost use Rattle.il_machine.specs.World.{port_of, ports_of};
ghost use Rattle.il_machine.specs.Ports.{is_steady, is_going_to};
ghost use Rattle.il_machine.specs.States.{same_state};
ghost use Rattle.omx_types.specs.declared.state.State.TheVariants as states;
ghost use Rattle.il_machine.specs.Due.{waits_after, reset_on, reset_ports, due_in, Transition, Flush, PortMode, WaitingMark};
ghost use Rattle.il_component.specs.Entries.{component_of, KeepsNotices};
ghost use Rattle.port_stock.specs.Kept.{stocked};
ghost use Rattle.flush_mark.specs.Leading.{Leads};
ghost use Rattle.port_rules.specs.Tests.{HasAllPorts, thing_of};
ghost use Rattle.port_rules.specs.Happened.{Happened, IsInOrder};

use crate::due::Due;
use flush_mark::{attach_mark, reset_home};
use il_component::Component;
use omx_types::State;
use port_stock::Stock;

/// The headers at home in each port of the component are reset.
fn reset_ports<C>(stock: &mut Stock, component: &Component<C>)
    requires { HasAllPorts (component_of component.now) (stocked stock.old) }
    ensures { Leads (reset_ports (ports_of (component_of component.now))) (stocked stock.old) (stocked stock.new) }
{
    for index in 0..component.ports() {
        let Some(port) = component.port(index) else {
            unreachable!()
        };
        reset_home(stock, port);
    }
}

/// The headers at home are reset where the component comes to Idle from above.
fn reset_on<C>(stock: &mut Stock, component: &Component<C>, target: State)
    requires { HasAllPorts (component_of component.now) (stocked stock.old) }
    ensures { Leads (reset_on (component_of component.now) target) (stocked stock.old) (stocked stock.new) }
{
    if matches!(target, State::Idle) && !state_rules::is_down(component.state()) {
        reset_ports(stock, component);
    }
}

/// How many waits are numbered once the state is reached.
fn waits_after(target: State, waits: u64) -> u64
    requires { same_state target states.WaitForResources ≡ true → waits < 18446744073709551615 }
    ensures { result ≡ waits_after target waits }
{
    if matches!(target, State::WaitForResources) {
        waits + 1
    } else {
        waits
    }
}

/// The pending transition is reached.
fn reach<C>(stock: &mut Stock, component: &mut Component<C>, waits: u64) -> u64
    requires in_order { IsInOrder (component_of component.old) (stocked stock.old) }
    requires pending { IsSome component.old.pending }
    requires left { is_going_to states.WaitForResources (component_of component.old) ≡ true → waits < 18446744073709551615 }
    ensures happened { Happened Transition (component_of component.old) (component_of component.new) (stocked stock.old) (stocked stock.new) waits result }
    ensures kept { KeepsNotices component.old component.new }
{
    let Some(pending) = component.pending() else {
        unreachable!()
    };
    reset_on(stock, component, pending.target);
    component.arrive(waits);
    waits_after(pending.target, waits)
}

/// The flush of the port has ended.
fn end_flush<C>(stock: &mut Stock, component: &mut Component<C>, index: u32, waits: u64) -> u64
    requires in_order { IsInOrder (component_of component.old) (stocked stock.old) }
    requires due { IsSomeAnd (port_of (component_of component.old) index) (λ p. p.state.flushing ≡ true) }
    ensures happened { Happened (Flush index) (component_of component.old) (component_of component.new) (stocked stock.old) (stocked stock.new) waits result }
    ensures kept { KeepsNotices component.old component.new }
{
    let Some(port) = component.port(index) else {
        unreachable!()
    };
    reset_home(stock, port);
    component.end_flush(index);
    waits
}

/// The disable or enable of the port has ended.
fn end_mode<C>(stock: &mut Stock, component: &mut Component<C>, index: u32, waits: u64) -> u64
    requires in_order { IsInOrder (component_of component.old) (stocked stock.old) }
    requires due { IsSomeAnd (port_of (component_of component.old) index) (λ p. is_steady p.state.mode ≡ false) }
    ensures happened { Happened (PortMode index) (component_of component.old) (component_of component.new) (stocked stock.old) (stocked stock.new) waits result }
    ensures kept { KeepsNotices component.old component.new }
{
    component.end_mode(index);
    waits
}

/// The mark of the port is put on a header.
fn end_mark<C>(stock: &mut Stock, component: &mut Component<C>, index: u32, waits: u64) -> u64
    requires in_order { IsInOrder (component_of component.old) (stocked stock.old) }
    requires due { IsSomeAnd (port_of (component_of component.old) index) (λ p. is_some p.state.waiting_mark ≡ true) }
    ensures happened { Happened (WaitingMark index) (component_of component.old) (component_of component.new) (stocked stock.old) (stocked stock.new) waits result }
    ensures kept { KeepsNotices component.old component.new }
{
    let Some(port) = component.port(index) else {
        unreachable!()
    };
    let Some(mark) = port.state.waiting_mark else {
        unreachable!()
    };
    attach_mark(stock, port.key, mark);
    component.end_mark(index);
    waits
}

/// What is due first at the component happens. So many waits were numbered before; it answers how many are then.
pub fn happen_in<C>(stock: &mut Stock, component: &mut Component<C>, due: Due, waits: u64) -> u64
    requires in_order { IsInOrder (component_of component.old) (stocked stock.old) }
    requires left { is_going_to states.WaitForResources (component_of component.old) ≡ true → waits < 18446744073709551615 }
    requires first { due_in (stocked stock.old).headers (component_of component.old) ≡ Some (thing_of due) }
    ensures happened { Happened (thing_of due) (component_of component.old) (component_of component.new) (stocked stock.old) (stocked stock.new) waits result }
    ensures kept { KeepsNotices component.old component.new }
{
    match due {
        Due::Transition => reach(stock, component, waits),
        Due::Flush(index) => end_flush(stock, component, index, waits),
        Due::Mode(index) => end_mode(stock, component, index, waits),
        Due::Mark(index) => end_mark(stock, component, index, waits),
    }
}
