//! The answers of a conductor, and the link of a late source with the steps of its change.

use omx_types::State;

/// A step of the change of a late source's link.
#[derive(Clone, Copy)]
pub enum ChangeStep {
    /// Both ends are disabled.
    Disable,
    /// The tunnel is dropped, both ends get the plan's definition, and the tunnel is set up again.
    Retune,
    /// Both ends are enabled.
    Enable,
}

/// What a play does next.
#[derive(Clone, Copy)]
pub enum Phase {
    /// The state is sent to every component, in script order.
    Send(State),
    /// The link of the late source at that place in script order.
    Change { component: u32, step: ChangeStep },
    Wait,
    Over,
    Failed,
}

/// The link of a late source, and how far its change has come.
#[derive(Clone, Copy)]
pub struct LateLink {
    /// The source and the component that takes from it, by their places in script order.
    pub source: u32,
    pub taker: u32,
    /// The port of the taker.
    pub input: u32,
    /// How many of its three steps were answered.
    pub steps: u32,
    /// What its two ends have told so far.
    pub output_disabled: bool,
    pub input_disabled: bool,
    pub output_enabled: bool,
    pub input_enabled: bool,
}
