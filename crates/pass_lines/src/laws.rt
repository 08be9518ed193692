//! What must hold of the lines of a pass, stated on a function that does nothing.

ghost use Rattle.std.specs.Prelude.{◌≡◌, ◌∷◌, ◌++◌, ◌<◌, ◌+◌, ℕ, List, [], All, Option, length};
ghost use Rattle.turnstile.specs.declared.entry.Entry.{Entry};
ghost use Rattle.turnstile.specs.Entries.{entry, own};
ghost use Rattle.play_log.specs.Choosing.{chosen, lists_by, picked};
ghost use Rattle.play_log.specs.Lines.{LogLine};
ghost use Rattle.play_log.specs.Merged.{merged_all};
ghost use Rattle.play_log.specs.Places.{line_place};
ghost use Rattle.pass_lines.specs.Passes.{lines_of, pass_of};

/// A pass whose entries stay has the lines that it had; one that makes a call has that call's line besides, at the place of the call. And
/// where no pass from a number on has an entry, the lists of those below it make the lines of the whole history, merged by place.
pub fn law_of_pass_lines<A, R>()
    ensures stays { (says : Entry A R → Option LogLine) (p : ℕ) (log more : List (Entry A R)) → own p (log ++ more) ≡ own p log → lines_of says p (log ++ more) ≡ lines_of says p log }
    ensures calls { (says : Entry A R → Option LogLine) (p : ℕ) (log : List (Entry A R)) (act : A) (reply : R)
        → lines_of says p (log ++ entry p act reply ∷ []) ≡ lines_of says p log ++ picked (says (entry p act reply)) (length log) [] }
    ensures merged { (says : Entry A R → Option LogLine) (passes : ℕ) (log : List (Entry A R)) → ((p : ℕ) → passes < p + 1 → own p log ≡ [])
        → merged_all line_place (lists_by pass_of says 0 passes log) ≡ chosen says 0 log }
{}
