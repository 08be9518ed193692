//! Acts by name: what is asked of components, ports, tunnels, headers and units.

use crate::{Name, PortName};
use omx_types::{Format, PortSel, State, Supplier};

/// An act that names components and ports alone, as a line of a trace or of a log has it.
#[derive(Clone, Copy)]
pub enum TextAct {
    Free(Name),
    State(Name),
    Port(PortName),
    SetPort {
        port: PortName,
        format: Format,
        count: u32,
        size: u32,
    },
    SetSupplier {
        port: PortName,
        supplier: Supplier,
    },
    SetPriority {
        component: Name,
        priority: u32,
    },
    Gain {
        component: Name,
        gain: u32,
    },
    Weight {
        port: PortName,
        weight: u32,
    },
    Tunnel {
        first: PortName,
        second: PortName,
    },
    DropTunnel {
        first: PortName,
        second: PortName,
    },
    SendState {
        component: Name,
        state: State,
    },
    SendFlush {
        component: Name,
        ports: PortSel,
    },
    SendDisable {
        component: Name,
        ports: PortSel,
    },
    SendEnable {
        component: Name,
        ports: PortSel,
    },
    SendMark {
        component: Name,
        port: u32,
        target: Name,
        value: u64,
    },
    Run(Name),
    /// Headers of a component go out for one step of its part.
    Claim(Name),
    /// They come back from the step.
    Finish(Name),
    Supply(PortName),
    Release(PortName),
    Over(PortName),
    Back(PortName),
    Take(Name),
    End(Name),
    /// Units for the first component that waits.
    Grant,
    /// A component's units, for the first that waits.
    Preempt,
}
