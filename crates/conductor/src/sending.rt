//! Which state is sent next.

ghost use Rattle.std.specs.Prelude.{◌≡◌, ◌<◌, length, Some, slice_get, IfSome, IfNone};
ghost use Rattle.conductor.specs.Phases.{all_at, all_states, all_told, has_failed, is_at, last_told, sinks_over};

use il_machine::Progress;
use omx_types::State;
use state_rules::is_same;

/// Whether a component has told an error.
pub fn has_failed(told: &[Progress]) -> bool
    ensures { result ≡ has_failed told.now }
{
    told.iter().any(|progress| progress.error.is_some())
}

fn is_at(state: State, reached: Option<State>) -> bool
    ensures { result ≡ is_at state reached }
{
    match reached {
        Some(other) => is_same(other, state),
        None => false,
    }
}

/// Whether the last state that each component has told is this one.
pub fn all_told(state: State, told: &[Progress]) -> bool
    ensures { result ≡ all_told state told.now }
{
    told.iter().all(|progress| is_at(state, progress.state))
}

/// Whether every sink has told the end of its stream.
pub fn sinks_over(sinks: &[bool], told: &[Progress]) -> bool
    requires { length told.now ≡ length sinks.now }
    ensures { result ≡ sinks_over sinks.now told.now }
{
    for place in 0..sinks.len() {
        if sinks[place] && !told[place].eos {
            return false;
        }
    }
    true
}

/// The state that is sent behind so many.
pub fn next_state(sends: u32) -> Option<State>
    ensures { result ≡ slice_get all_states sends }
{
    match sends {
        0 => Some(State::Idle),
        1 => Some(State::Executing),
        2 => Some(State::Idle),
        3 => Some(State::Loaded),
        _ => None,
    }
}

/// Whether every component has told the last of so many states.
pub fn last_told(sends: u32, told: &[Progress]) -> bool
    ensures { result ≡ last_told sends told.now }
{
    if sends == 0 {
        return true;
    }
    match next_state(sends - 1) {
        Some(state) => all_told(state, told),
        None => false,
    }
}
