//! What is due at a component.

ghost use Rattle.std.specs.Prelude.{◌≡◌, option_map, true, false};
ghost use Rattle.il_machine.specs.Due.{due_in, is_transition_due, is_flush_due, is_mode_due, is_mark_due, is_due_to};
ghost use Rattle.il_component.specs.Entries.{component_of};
ghost use Rattle.port_stock.specs.Kept.{stocked};
ghost use Rattle.port_stock.specs.Conditions.{IsPort};
ghost use Rattle.port_rules.specs.Tests.{HasAllPorts, thing_of, port_due};

use crate::terms::{PortTest, each_port, is_populated, is_unmade};
use flush_mark::flush_settled;
use il_component::Component;
use il_machine::{Mode, Port};
use omx_types::State;
use port_stock::Stock;

/// A thing that is due at a component. A port is named by its number.
#[derive(Clone, Copy)]
pub enum Due {
    Transition,
    Flush(u32),
    Mode(u32),
    Mark(u32),
}

fn is_due_to<C>(stock: &Stock, component: &Component<C>, target: State) -> bool
    requires { HasAllPorts (component_of component.now) (stocked stock.now) }
    ensures { result ≡ is_due_to (stocked stock.now).headers (component_of component.now) target }
{
    match target {
        State::Idle => {
            if state_rules::is_down(component.state()) {
                each_port(stock, component, PortTest::Ready)
            } else {
                each_port(stock, component, PortTest::Settled) && !component.is_work_out()
            }
        }
        State::Loaded => each_port(stock, component, PortTest::Unmade),
        State::WaitForResources | State::Executing | State::Pause => true,
        State::Invalid => false,
    }
}

fn is_transition_due<C>(stock: &Stock, component: &Component<C>) -> bool
    requires { HasAllPorts (component_of component.now) (stocked stock.now) }
    ensures { result ≡ is_transition_due (stocked stock.now).headers (component_of component.now) }
{
    match component.pending() {
        Some(pending) => is_due_to(stock, component, pending.target),
        None => false,
    }
}

fn is_flush_due<C>(stock: &Stock, component: &Component<C>, port: Port) -> bool
    requires { IsPort port.key (stocked stock.now) }
    ensures { result ≡ is_flush_due (stocked stock.now).headers (component_of component.now) port }
{
    port.state.flushing && flush_settled(stock, port.key, component.is_work_out())
}

fn is_mode_due<C>(stock: &Stock, component: &Component<C>, port: Port) -> bool
    requires { IsPort port.key (stocked stock.now) }
    ensures { result ≡ is_mode_due (stocked stock.now).headers (component_of component.now) port port.state.mode }
{
    match port.state.mode {
        Mode::Steady => false,
        Mode::Disabling => is_unmade(stock, port),
        Mode::Enabling => is_populated(stock, port) || state_rules::is_down(component.state()),
    }
}

fn is_mark_due(stock: &Stock, port: Port) -> bool
    requires { IsPort port.key (stocked stock.now) }
    ensures { result ≡ is_mark_due (stocked stock.now).headers port }
{
    port.state.waiting_mark.is_some() && stock.has_unmarked(port.key)
}

/// The first thing that is due at the port.
fn port_due<C>(stock: &Stock, component: &Component<C>, port: Port) -> Option<Due>
    requires { IsPort port.key (stocked stock.now) }
    ensures { option_map thing_of result ≡ port_due (stocked stock.now).headers (component_of component.now) port }
{
    if is_flush_due(stock, component, port) {
        Some(Due::Flush(port.key.port))
    } else if is_mode_due(stock, component, port) {
        Some(Due::Mode(port.key.port))
    } else if is_mark_due(stock, port) {
        Some(Due::Mark(port.key.port))
    } else {
        None
    }
}

/// The first thing that is due at the component. Only the ports at which something is pending are asked.
pub fn due_in<C>(stock: &Stock, component: &Component<C>) -> Option<Due>
    requires { HasAllPorts (component_of component.now) (stocked stock.now) }
    ensures { option_map thing_of result ≡ due_in (stocked stock.now).headers (component_of component.now) }
{
    if component.is_calm() {
        return None;
    }
    if is_transition_due(stock, component) {
        return Some(Due::Transition);
    }
    // The proof learns from it that a port's number is small.
    let _ports = component.ports();
    let mut from = 0;
    while let Some(index) = component.next_busy(from) {
        let Some(port) = component.port(index) else {
            unreachable!()
        };
        let due = port_due(stock, component, port);
        if due.is_some() {
            return due;
        }
        from = index + 1;
    }
    None
}
