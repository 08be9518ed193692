//! The states of a component, with their numbers and names.

ghost use Rattle.std.specs.Prelude.{◌≡◌};

/// A component's state (OpenMAX IL 1.1.2, `OMX_STATETYPE`).
#[derive(Clone, Copy, Debug, PartialEq, Eq)]
pub enum State {
    Invalid,
    Loaded,
    Idle,
    Executing,
    Pause,
    WaitForResources,
}

impl State {
    ghost use Rattle.omx_types.specs.Numbers.{state_number};
    ghost use Rattle.omx_types.specs.Names.{state_name};

    /// The number that the standard gives the state.
    pub fn number(self) -> u32
        ensures { result ≡ state_number self }
    {
        match self {
            State::Invalid => 0,
            State::Loaded => 1,
            State::Idle => 2,
            State::Executing => 3,
            State::Pause => 4,
            State::WaitForResources => 5,
        }
    }

    /// The standard's name of the state, without its prefix.
    pub fn name(self) -> &'static str
        ensures { result.now ≡ state_name self }
    {
        match self {
            State::Invalid => "Invalid",
            State::Loaded => "Loaded",
            State::Idle => "Idle",
            State::Executing => "Executing",
            State::Pause => "Pause",
            State::WaitForResources => "WaitForResources",
        }
    }
}
