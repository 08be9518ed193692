//! When a conductor gives each of its answers, stated on a function that does nothing.

ghost use Rattle.std.specs.Prelude.{◌≡◌};
ghost use Rattle.conductor.specs.declared.phase.Phase.{Phase};
ghost use Rattle.conductor.specs.Hearing.{ConductorValue};
ghost use Rattle.conductor.specs.Phases.{Conducts};

/// What a conductor knows leaves one answer, so each answer comes exactly where it is named.
pub fn law_of_phases()
    ensures one_phase { (value next other : ConductorValue) (phase answer : Phase) → Conducts value phase next → Conducts value answer other → phase ≡ answer }
    ensures one_value { (value next other : ConductorValue) (phase answer : Phase) → Conducts value phase next → Conducts value answer other → next ≡ other }
{}
