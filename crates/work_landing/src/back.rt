//! How a header of a work comes back: by its port, and by what is known of the step.

ghost use Rattle.std.specs.Prelude.{◌≤◌};

use il_machine::Mark;
use omx_types::Handle;

/// How a port takes a header back.
#[derive(Clone, Copy)]
pub struct Way {
    pub input: bool,
    /// The bytes of a frame.
    pub frame: usize,
    /// It is an end of a tunnel.
    pub joined: bool,
    /// It returns its headers.
    pub returning: bool,
    ghost some: { 1 ≤ frame },
}

/// How a header of a work comes back.
#[derive(Clone, Copy)]
pub(crate) struct Back {
    /// Its port is an input.
    pub(crate) input: bool,
    /// An input's header that is spent, or an output's that was filled.
    pub(crate) finished: bool,
    /// Its port returns its headers.
    pub(crate) returning: bool,
    /// Its port is an end of a tunnel.
    pub(crate) joined: bool,
    /// The step failed.
    pub(crate) failed: bool,
}

/// What is known of the step.
#[derive(Clone, Copy)]
pub(crate) struct Known {
    pub(crate) component: Handle,
    pub(crate) failed: bool,
    /// The outputs' headers were filled.
    pub(crate) filled: bool,
    /// The mark that is carried on.
    pub(crate) mark: Option<Mark>,
}
