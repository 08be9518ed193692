//! What holds of every list of calls of a clock, stated on a function that does nothing.

ghost use Rattle.std.specs.Prelude.{List};
ghost use Rattle.clock_core.specs.Calls.{IsLawful};
ghost use Rattle.clock_core.specs.declared.act.TimedAct.{TimedAct};

/// What holds of every list of calls on a new clock, whose notes and refusals `Clock::call` tells.
///
/// A request is an accepted `Ask`. It is fulfilled at most once, at the first moment at which it is due, if it
/// isn't cancelled before. Of two that are outstanding together, be it within one call, the one with the
/// lesser media time is fulfilled first.
pub fn law_of_calls()
    ensures { (calls : List TimedAct) → IsLawful calls }
{}
