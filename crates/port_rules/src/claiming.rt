//! Why a component gives no work, and which of its ports give a header to one.

ghost use Rattle.std.specs.Prelude.{◌≡◌, ◌+◌, ◌≤◌, not, ◌&&◌, ◌||◌, true, false, nat_lt, [], ◌∷◌, length, filter, option_map};
ghost use Rattle.il_machine.specs.Headers.{Seen};
ghost use Rattle.il_machine.specs.Kinds.{is_auto, is_late};
ghost use Rattle.il_machine.specs.Lists.{first_of_these};
ghost use Rattle.il_machine.specs.Look.{Look};
ghost use Rattle.il_machine.specs.Room.{room};
ghost use Rattle.il_machine.specs.World.{ports_of};
ghost use Rattle.il_machine.specs.Claims.{ClaimedEvents, claim_idle, gives_header, is_claimable, must_announce};
ghost use Rattle.il_component.specs.Entries.{component_of};
ghost use Rattle.port_stock.specs.Kept.{stocked};
ghost use Rattle.port_stock.specs.Conditions.{IsPort};
ghost use Rattle.port_rules.specs.Tests.{HasAllPorts};
ghost use Rattle.port_rules.specs.Claiming.{claim_test, claimed_by, port_idle, port_where, work_idle};

use crate::terms::{PortTest, each_port};
use il_component::Component;
use il_machine::Port;
use omx_types::{Format, Kind};
use port_stock::Stock;

/// Why a component gives no work.
#[derive(Clone, Copy)]
pub enum NoWork {
    Busy,
    NotRunning,
    Ended,
    Held(u32),
    NoData(u32),
    NoRoom(u32),
    Events { room: u32, need: u32 },
}

/// What of a port a work depends on.
#[derive(Clone, Copy)]
enum ClaimTest {
    Unannounced,
    Held,
    NoData,
    NoRoom,
    /// One of these three.
    Idle,
}

fn is_auto(format: Format) -> bool
    ensures { result ≡ is_auto format }
{
    matches!(format, Format::Auto)
}

/// Whether the port gives a header to a step.
pub fn gives_header<C>(component: &Component<C>, port: Port) -> bool
    ensures { result ≡ gives_header (component_of component.now) port }
{
    !(port.setting.definition.input && component.has_ended(port.key.port))
}

impl ClaimTest {
    fn holds<C>(self, stock: &Stock, component: &Component<C>, port: Port) -> bool
        requires { IsPort port.key (stocked stock.now) }
        ensures { result ≡ claim_test self (stocked stock.now).headers (component_of component.now) port }
    {
        let input = port.setting.definition.input;
        match self {
            ClaimTest::Unannounced => component.is_unannounced(port),
            ClaimTest::Held => port.state.held || is_auto(port.setting.definition.format),
            ClaimTest::NoData => input
                && !component.has_ended(port.key.port)
                && !stock.has_todo(port.key),
            ClaimTest::NoRoom => !input && !stock.has_todo(port.key),
            ClaimTest::Idle => port.state.held
                || is_auto(port.setting.definition.format)
                || !stock.has_todo(port.key) && gives_header(component, port),
        }
    }
}

/// The number of the first port that passes the test.
fn first_port<C>(stock: &Stock, component: &Component<C>, test: ClaimTest) -> Option<u32>
    requires { HasAllPorts (component_of component.now) (stocked stock.now) }
    ensures { result ≡ port_where (claim_test test (stocked stock.now).headers (component_of component.now)) (ports_of (component_of component.now)) }
{
    for index in 0..component.ports() {
        let Some(port) = component.port(index) else {
            unreachable!()
        };
        if test.holds(stock, component, port) {
            return Some(port.key.port);
        }
    }
    None
}

/// How many ports give a header to a step.
fn wanted_count<C>(stock: &Stock, component: &Component<C>) -> u32
    requires { HasAllPorts (component_of component.now) (stocked stock.now) }
    ensures count { result ≡ length (filter (gives_header (component_of component.now)) (ports_of (component_of component.now))) }
    ensures few { result ≤ 9 }
{
    let mut count = 0;
    for index in 0..component.ports() {
        let Some(port) = component.port(index) else {
            unreachable!()
        };
        if gives_header(component, port) {
            count += 1;
        }
    }
    count
}

/// Executing with nothing pending, and each port is open.
fn is_claimable<C>(stock: &Stock, component: &Component<C>) -> bool
    requires { HasAllPorts (component_of component.now) (stocked stock.now) }
    ensures { result ≡ is_claimable (component_of component.now) }
{
    state_rules::is_executing(component.state())
        && component.pending().is_none()
        && each_port(stock, component, PortTest::Open)
}

fn is_late<C>(component: &Component<C>) -> bool
    ensures { result ≡ is_late (component_of component.now).settings.kind }
{
    matches!(component.kind(), Kind::Late)
}

/// Whether a late source has to tell that its output has another format than its file.
pub fn must_announce<C>(stock: &Stock, component: &Component<C>) -> bool
    requires { HasAllPorts (component_of component.now) (stocked stock.now) }
    ensures { result ≡ must_announce (component_of component.now) }
{
    if !is_late(component) {
        return false;
    }
    first_port(stock, component, ClaimTest::Unannounced).is_some()
}

/// Whether there is no place for so many headers' events, and two.
fn lacks_event_room<C>(component: &Component<C>, headers: u32) -> Option<NoWork>
    requires { headers ≤ 9 }
    ensures { option_map claimed_by result ≡ first_of_these ((nat_lt (room (component_of component.now)) (headers + 2), ClaimedEvents (room (component_of component.now)) (headers + 2)) ∷ []) }
{
    let room = component.room();
    let need = headers + 2;
    if room < need {
        Some(NoWork::Events { room, need })
    } else {
        None
    }
}

/// The first of its ports that keeps the component from a step.
fn port_idle<C>(stock: &Stock, component: &Component<C>) -> Option<NoWork>
    requires { HasAllPorts (component_of component.now) (stocked stock.now) }
    ensures { option_map claimed_by result ≡ port_idle (stocked stock.now).headers (component_of component.now) }
{
    if first_port(stock, component, ClaimTest::Idle).is_none() {
        return None;
    }
    if let Some(port) = first_port(stock, component, ClaimTest::Held) {
        return Some(NoWork::Held(port));
    }
    if let Some(port) = first_port(stock, component, ClaimTest::NoData) {
        return Some(NoWork::NoData(port));
    }
    if let Some(port) = first_port(stock, component, ClaimTest::NoRoom) {
        return Some(NoWork::NoRoom(port));
    }
    None
}

/// What keeps a component from a work that could step or announce.
fn work_idle<C>(stock: &Stock, component: &Component<C>) -> Option<NoWork>
    requires { HasAllPorts (component_of component.now) (stocked stock.now) }
    ensures { option_map claimed_by result ≡ work_idle (stocked stock.now).headers (component_of component.now) }
{
    if must_announce(stock, component) {
        return lacks_event_room(component, 0);
    }
    let idle = port_idle(stock, component);
    if idle.is_some() {
        return idle;
    }
    lacks_event_room(component, wanted_count(stock, component))
}

/// Why the component gives no work, if it doesn't.
pub fn claim_idle<C>(stock: &Stock, component: &Component<C>) -> Option<NoWork>
    requires { HasAllPorts (component_of component.now) (stocked stock.now) }
    ensures { (l : Look) → l.headers ≡ (stocked stock.now).headers → option_map claimed_by result ≡ claim_idle l (component_of component.now) }
{
    if component.is_work_out() {
        Some(NoWork::Busy)
    } else if !is_claimable(stock, component) {
        Some(NoWork::NotRunning)
    } else if component.is_over() {
        Some(NoWork::Ended)
    } else {
        work_idle(stock, component)
    }
}
