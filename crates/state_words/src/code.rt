//! States in words.
ghost use Rattle.std.specs.Prelude.{◌≡◌};
ghost use Rattle.omx_types.specs.declared.state.State.{State};
ghost use Rattle.omx_types.specs.Numbers.{state_number};

use omx_types::State;

/// The state of a number.
pub(crate) fn state_of(number: u64) -> State
    ensures { (s : State) → number ≡ state_number s → result ≡ s }
{
    match number {
        1 => State::Loaded,
        2 => State::Idle,
        3 => State::Executing,
        4 => State::Pause,
        5 => State::WaitForResources,
        _ => State::Invalid,
    }
}
