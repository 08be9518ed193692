//! What goes out of a shared value to the passes that use it in turns, and comes back: which pass holds what, by its own calls.
//! The law is stated on a function that does nothing.
#![tactic(auto)]

ghost use Rattle.std.specs.Prelude.{◌∷◌, ◌++◌, ℕ, List, []};
ghost use Rattle.turnstile.specs.declared.entry.Entry.{Entry};
ghost use Rattle.turnstile.specs.Entries.{entry};
ghost use Rattle.held_things.specs.Held.{Tells, AreHeld, Moves, IsOwn, held_by};

/// What a shared value lends to passes by its calls, and how one state of it follows another.
pub trait Lending {
    ghost use Rattle.std.specs.Prelude.{ℕ, Bool, Option};

    type Thing;

    type Key;

    type Act;

    type Reply;

    ghost key: { Self.Thing → Self.Key };

    /// Whether two keys are one.
    ghost same: { Self.Key → Self.Key → Bool };

    /// The key of the thing that a call takes in.
    ghost gone: { Self.Act → Self.Reply → Option Self.Key };

    /// The thing that a call gives.
    ghost come: { Self.Act → Self.Reply → Option Self.Thing };

    /// The thing is out, as it was got, before the call; and after it.
    ghost out: { Self.Thing → Type 0 };

    ghost out_then: { Self.Thing → Type 0 };

    /// A thing of the key is out, before the call; after it; and at first.
    ghost is: { Self.Key → Type 0 };

    ghost is_then: { Self.Key → Type 0 };

    ghost was: { Self.Key → Type 0 };
}

/// Where a pass gives back what it holds, each thing that a pass holds stays out as it was got, with one holder, after its call.
pub fn law_of_holding<L: Lending>()
    ensures { (log : List (Entry L.Act L.Reply)) (pass : ℕ) (a : L.Act) (r : L.Reply)
        → Tells L.same → AreHeld L.key (held_by L.key L.same L.gone L.come log) L.out L.is L.was
        → IsOwn L.key (held_by L.key L.same L.gone L.come log pass) (L.gone a r) → Moves L.key (L.gone a r) (L.come a r) L.out L.out_then L.is L.is_then
        → AreHeld L.key (held_by L.key L.same L.gone L.come (log ++ entry pass a r ∷ [])) L.out_then L.is_then L.was }
{}
