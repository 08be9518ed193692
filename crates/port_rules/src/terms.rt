//! The terms of ports: populated, settled, accepting, returning, leaving, open.

ghost use Rattle.std.specs.Prelude.{◌≡◌, ◌||◌};
ghost use Rattle.il_machine.specs.Ports.{accepting, is_joined, is_open, leaving, is_populated, returning, settled, has_no_header, is_going_to};
ghost use Rattle.il_machine.specs.Due.{each_port};
ghost use Rattle.il_component.specs.Entries.{component_of};
ghost use Rattle.port_stock.specs.Kept.{stocked};
ghost use Rattle.port_stock.specs.Conditions.{IsPort};
ghost use Rattle.port_rules.specs.Tests.{HasAllPorts, port_test};

use il_component::Component;
use il_machine::{Mode, Port};
use omx_types::State;
use port_stock::Stock;

/// A test of a port's headers.
#[derive(Clone, Copy)]
pub enum PortTest {
    /// As many are made as the port's count, or it is disabled.
    Ready,
    /// Each is at home or in a notice.
    Settled,
    /// None is made.
    Unmade,
    /// The port itself is open, whatever its headers.
    Open,
}

/// As many headers are made for the port as its count.
pub fn is_populated(stock: &Stock, port: Port) -> bool
    requires { IsPort port.key (stocked stock.now) }
    ensures { result ≡ is_populated (stocked stock.now).headers port }
{
    stock.made(port.key) == port.setting.definition.count
}

/// No header of the port is made.
pub fn is_unmade(stock: &Stock, port: Port) -> bool
    requires { IsPort port.key (stocked stock.now) }
    ensures { result ≡ has_no_header (stocked stock.now).headers port }
{
    stock.made(port.key) == 0
}

fn is_settled(stock: &Stock, port: Port) -> bool
    requires { IsPort port.key (stocked stock.now) }
    ensures { result ≡ settled (stocked stock.now).headers port }
{
    stock.outstanding(port.key) == 0
}

impl PortTest {
    fn holds(self, stock: &Stock, port: Port) -> bool
        requires { IsPort port.key (stocked stock.now) }
        ensures { result ≡ port_test self (stocked stock.now).headers port }
    {
        match self {
            PortTest::Ready => !port.state.enabled || is_populated(stock, port),
            PortTest::Settled => is_settled(stock, port),
            PortTest::Unmade => is_unmade(stock, port),
            PortTest::Open => is_open(port),
        }
    }
}

/// Whether each port of the component passes the test.
pub fn each_port<C>(stock: &Stock, component: &Component<C>, test: PortTest) -> bool
    requires { HasAllPorts (component_of component.now) (stocked stock.now) }
    ensures { result ≡ each_port (component_of component.now) (port_test test (stocked stock.now).headers) }
{
    for index in 0..component.ports() {
        let Some(port) = component.port(index) else {
            unreachable!()
        };
        if !test.holds(stock, port) {
            return false;
        }
    }
    true
}

/// Whether a transition to the state is pending.
pub fn is_going_to<C>(component: &Component<C>, target: State) -> bool
    ensures { result ≡ is_going_to target (component_of component.now) }
{
    component
        .pending()
        .is_some_and(|pending| state_rules::is_same(pending.target, target))
}

/// Whether a header may be made for the port.
pub fn is_accepting<C>(stock: &Stock, component: &Component<C>, port: Port) -> bool
    requires { IsPort port.key (stocked stock.now) }
    ensures { result ≡ accepting (stocked stock.now).headers (component_of component.now) port }
{
    let state = component.state();
    let comes_up = state_rules::is_down(state) && is_going_to(component, State::Idle);
    let is_up = state_rules::is_up(state) && component.pending().is_none();
    port.state.enabled && !is_populated(stock, port) && (comes_up || is_up)
}

/// Whether the headers of the port go back to where they are at home.
pub fn is_returning<C>(component: &Component<C>, port: Port) -> bool
    ensures { result ≡ returning (component_of component.now) port }
{
    port.state.flushing
        || matches!(port.state.mode, Mode::Disabling)
        || component.is_invalid()
        || (state_rules::is_running(component.state()) && is_going_to(component, State::Idle))
}

/// Whether the headers of the port are to be unmade.
pub fn is_leaving<C>(component: &Component<C>, port: Port) -> bool
    ensures { result ≡ leaving (component_of component.now) port }
{
    matches!(port.state.mode, Mode::Disabling)
        || component.is_invalid()
        || is_going_to(component, State::Loaded)
}

/// The port is enabled, and is neither flushed nor enabled or disabled at present.
pub fn is_open(port: Port) -> bool
    ensures { result ≡ is_open port }
{
    port.state.enabled && matches!(port.state.mode, Mode::Steady) && !port.state.flushing
}

/// Whether the port is one of a tunnel.
pub fn is_joined(port: Port) -> bool
    ensures { result ≡ is_joined port }
{
    port.state.link.is_some()
}
