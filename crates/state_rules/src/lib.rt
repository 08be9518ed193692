//! Which transitions of a component's state are lawful, and what a state that is asked for comes to.
#![tactic(auto)]

ghost use Rattle.std.specs.Prelude.{◌≡◌, ◌↔◌, IsTrue, IfSome, None};
ghost use Rattle.il_machine.specs.States.{is_executing, is_lawful, is_down, is_up, is_running, same_state};
ghost use Rattle.state_rules.specs.Asked.{asked};

use omx_types::State;

/// What a state that is asked for comes to.
#[derive(Clone, Copy)]
pub enum Asked {
    /// The transition is lawful, and begins.
    Begin,
    /// It is the present state.
    Same,
    /// The transition isn't lawful.
    Wrong,
    /// A transition to this state is pending, which must be reached first.
    Wait(State),
}

/// Whether the standard has a transition from the one state to the other.
pub fn is_lawful(now: State, target: State) -> bool
    ensures { result ≡ is_lawful now target }
{
    match now {
        State::Loaded => matches!(target, State::Idle | State::WaitForResources),
        State::WaitForResources => matches!(target, State::Loaded),
        State::Idle => matches!(target, State::Loaded | State::Executing | State::Pause),
        State::Executing => matches!(target, State::Idle | State::Pause),
        State::Pause => matches!(target, State::Idle | State::Executing),
        State::Invalid => false,
    }
}

/// What `target` comes to for a component in the state `now`, where a transition to `pending` may be under way.
pub fn ask(now: State, pending: Option<State>, target: State) -> Asked
    ensures asked { result ≡ asked now pending target }
    ensures waits { IfSome pending (λ awaited. result ≡ Asked.Wait awaited) }
    ensures begins { pending ≡ None → IsTrue (is_lawful now target) → result ≡ Asked.Begin }
{
    match pending {
        Some(awaited) => Asked::Wait(awaited),
        None if is_same(now, target) => Asked::Same,
        None if is_lawful(now, target) => Asked::Begin,
        None => Asked::Wrong,
    }
}

/// Whether the two states are one.
pub fn is_same(a: State, b: State) -> bool
    ensures same { result ≡ same_state a b }
    ensures exactly { IsTrue result ↔ (a ≡ b) }
{
    a == b
}

/// Loaded or WaitForResources.
pub fn is_down(state: State) -> bool
    ensures { result ≡ is_down state }
{
    matches!(state, State::Loaded | State::WaitForResources)
}

/// Idle, Executing or Pause.
pub fn is_up(state: State) -> bool
    ensures { result ≡ is_up state }
{
    matches!(state, State::Idle | State::Executing | State::Pause)
}

/// Executing alone.
pub fn is_executing(state: State) -> bool
    ensures { result ≡ is_executing state }
{
    matches!(state, State::Executing)
}

/// Executing or Pause.
pub fn is_running(state: State) -> bool
    ensures { result ≡ is_running state }
{
    matches!(state, State::Executing | State::Pause)
}
