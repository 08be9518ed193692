//! What a value promises that is served in turns.

/// A value that answers acts, one after another.
pub trait Serve {
    ghost use Rattle.std.specs.Prelude.{◌≡◌, ℕ, List, [], ◌∷◌, ◌++◌};
    ghost use Rattle.turnstile.specs.declared.entry.Entry.{Entry};
    ghost use Rattle.turnstile.specs.Entries.{entry, Due};

    type Act;

    type Reply;

    /// The acts and replies of the history are a run from this value.
    ghost legal: { Self → List (Entry Self.Act Self.Reply) → Type 0 };

    /// The second value stands for the state after a legal history from the first.
    ghost reaches: { Self → List (Entry Self.Act Self.Reply) → Self → Type 0 };

    /// A pass with these entries of its own may ask this, where the history began at the value.
    ghost may: { Self → List (Entry Self.Act Self.Reply) → Self.Act → Type 0 };

    /// A pass with these entries of its own holds nothing that it must give back.
    ghost clear: { List (Entry Self.Act Self.Reply) → Type 0 };

    /// What `serve` asks of the value, the act and the place.
    ghost can_serve: { Self → Self.Act → ℕ → Type 0 };

    /// Serves the act, whose place in the history is `place`.
    fn serve(&mut self, act: Self::Act, place: u64) -> Self::Reply
        requires { can_serve self.old act place }
        ensures { (first : Self) (log : List (Entry Self.Act Self.Reply)) (pass : ℕ) → Due legal reaches may first log pass self.old act place → legal first (log ++ entry pass act result ∷ []) × reaches first (log ++ entry pass act result ∷ []) self.new };

    /// An act that comes next can be served.
    ghost serves: { (first value : Self) (log : List (Entry Self.Act Self.Reply)) (pass : ℕ) (act : Self.Act) (place : ℕ) → Due legal reaches may first log pass value act place → can_serve value act place };
}
