//! What commands make of a component's ports, and the places for events that ports reserve.

ghost use Rattle.std.specs.Prelude.{◌≡◌, ◌<◌, ◌≤◌, ◌*◌, ℕ, length, map, nat_eq, sum_by, if◌then◌else◌};
ghost use Rattle.bit_set.specs.Members.{has};
ghost use Rattle.il_machine.specs.Room.{port_reserve};
ghost use Rattle.il_machine.specs.Commands.{is_selected, selected_from, calmed};
ghost use Rattle.il_machine.specs.Due.{unheld};
ghost use Rattle.il_component.specs.PortChanges.{changed_by, busy_test, busy_among};
ghost use Rattle.il_component.specs.Busy.{is_busy, AreBusy};

use bit_set::BitSet;
use il_machine::{Mark, Mode, PortState, Why};
use omx_types::PortSel;

/// What a command makes of a port.
#[derive(Clone, Copy)]
pub enum PortChange {
    Flush,
    Disable,
    Enable,
    Wait(Mark),
}

impl PortChange {
    fn of(self, port: PortState) -> PortState
        ensures { result ≡ changed_by self port }
    {
        let mut port = port;
        match self {
            PortChange::Flush => port.flushing = true,
            PortChange::Disable => {
                port.enabled = false;
                port.mode = Mode::Disabling;
            }
            PortChange::Enable => {
                port.enabled = true;
                port.mode = Mode::Enabling;
            }
            PortChange::Wait(mark) => port.waiting_mark = Some(mark),
        }
        port
    }
}

/// Whether a command names the port.
pub fn is_selected(sel: PortSel, index: u32) -> bool
    ensures { result ≡ is_selected sel index }
{
    match sel {
        PortSel::One(port) => index == port,
        PortSel::All => true,
    }
}

/// Changes each port that the command names.
pub fn change_selected(ports: &mut [PortState], sel: PortSel, change: PortChange)
    requires { length ports.old ≤ 16 }
    ensures { ports.new ≡ selected_from 0 sel (changed_by change) ports.old }
{
    for index in 0..ports.len() {
        if is_selected(sel, index as u32) {
            ports[index] = change.of(ports[index]);
        }
    }
}

/// Drops all that is pending at the ports.
pub fn put_at_rest(ports: &mut [PortState])
    ensures { ports.new ≡ map calmed ports.old }
{
    for port in ports.iter_mut() {
        port.mode = Mode::Steady;
        port.flushing = false;
        port.waiting_mark = None;
    }
}

/// No port is held any more.
pub fn let_all_go(ports: &mut [PortState])
    ensures { ports.new ≡ map unheld ports.old }
{
    for port in ports.iter_mut() {
        port.held = false;
    }
}

/// The places of one port: for its flush, its mode and its mark.
fn port_reserve(port: &PortState) -> u32
    ensures count { result ≡ port_reserve port.now }
    ensures few { result ≤ 3 }
{
    let flush = u32::from(port.flushing);
    let mode = u32::from(!matches!(port.mode, Mode::Steady));
    let mark = u32::from(port.waiting_mark.is_some());
    flush + mode + mark
}

/// The places of all ports.
pub fn all_port_reserves(ports: &[PortState]) -> u32
    requires { length ports.now ≤ 16 }
    ensures count { result ≡ sum_by port_reserve ports.now }
    ensures few { result ≤ 3 * length ports.now }
{
    let mut places = 0;
    for port in ports {
        places += port_reserve(port);
    }
    places
}

/// What keeps a command on a port from being carried out.
#[derive(Clone, Copy)]
pub enum Busy {
    Flushing,
    Changing,
    Waiting,
}

impl Busy {
    fn holds_at(self, port: &PortState) -> bool
        ensures { result ≡ busy_test self port.now }
    {
        match self {
            Busy::Flushing => port.flushing,
            Busy::Changing => !matches!(port.mode, Mode::Steady),
            Busy::Waiting => port.waiting_mark.is_some(),
        }
    }
}

/// The least port that the command names and that is busy so.
pub fn first_busy(ports: &[PortState], sel: PortSel, busy: Busy) -> Option<Why>
    requires { length ports.now ≤ 16 }
    ensures { result ≡ busy_among 0 sel (busy_test busy) ports.now }
{
    for index in 0..ports.len() {
        if is_selected(sel, index as u32) && busy.holds_at(&ports[index]) {
            return Some(Why::PortBusy(index as u32));
        }
    }
    None
}

/// Whether something is pending at the port.
fn is_busy(port: &PortState) -> bool
    ensures { result ≡ is_busy port.now }
{
    Busy::Flushing.holds_at(port) || Busy::Changing.holds_at(port) || Busy::Waiting.holds_at(port)
}

/// The ports at which something is pending.
pub fn busy_of(ports: &[PortState]) -> BitSet
    requires { length ports.now ≤ 16 }
    ensures { AreBusy ports.now result }
{
    let mut busy = BitSet::empty();
    for index in 0..ports.len() {
        if is_busy(&ports[index]) {
            busy.insert(index);
        }
    }
    busy
}

/// Whether the port, whose state is this now, is one of those.
pub fn keep_busy(busy: &mut BitSet, index: usize, port: &PortState)
    requires { index < 16 }
    ensures { (i : ℕ) → has busy.new i ≡ (if nat_eq i index then is_busy port.now else has busy.old i) }
{
    if is_busy(port) {
        busy.insert(index);
    } else {
        busy.remove(index);
    }
}
