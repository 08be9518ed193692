//! What must hold of logs, stated on a function that does nothing.

ghost use Rattle.std.specs.Prelude.{[], ◌∷◌, ◌++◌, false, ◌≡◌, ◌^◌, ◌<◌, ℕ, List, All, Option, length, true};
ghost use Rattle.il_machine.specs.World.{World};
ghost use Rattle.il_machine.specs.Due.{IsClosed};
ghost use Rattle.il_machine.specs.Run.{Meets, Run, Step};
ghost use Rattle.il_machine.specs.Sound.{Sound};
ghost use Rattle.play_log.specs.Entries.{Entry, is_unprinted, printed, steps_of};
ghost use Rattle.play_log.specs.Choosing.{chosen, lists_by};
ghost use Rattle.play_log.specs.Lines.{LogLine, IsLogLine, lines_of};
ghost use Rattle.play_log.specs.Merged.{merged_all};
ghost use Rattle.play_log.specs.Places.{line_place};
ghost use Rattle.play_log.specs.Logged.{AreLinesOf, IsLogged};
ghost use Rattle.play_log.specs.Saying.{Says};
ghost use Rattle.play_log.specs.Naming.{AreTelling, IsNaming, IsUnbroken};
ghost use Rattle.play_log.specs.Scenes.{Scene, HaveOwnNames};

/// The log of a history names its entries without those that are left out, and nothing else; these are a run between the same worlds,
/// since an entry that is left out changes no world. So a log says what was done: where each file tells its bytes, no other entries have
/// that text.
pub fn law_of_logs()
    ensures names { (scene : Scene) (world after : World) (history : List Entry) (text : List ℕ)
        → Sound world → IsClosed world → Run world (steps_of history) after → All (λ entry. IsUnbroken entry.act) history
        → IsLogged scene history text → IsNaming scene world text (printed history) after }
    ensures runs { (scene : Scene) (world after : World) (text : List ℕ) (entries : List Entry) → IsNaming scene world text entries after → Run world (steps_of entries) after }
    ensures stays { (world after : World) (entry : Entry)
        → Sound world → IsClosed world → Meets world entry.act → Step world entry.act entry.reply after → is_unprinted entry.reply ≡ true → after ≡ world }
    ensures only { (scene : Scene) (world after middle : World) (text : List ℕ) (entries others : List Entry)
        → HaveOwnNames scene.parts → Sound world → AreTelling world → length text < 2 ^ 64
        → IsNaming scene world text entries after → IsNaming scene world text others middle → (others ≡ entries) × (middle ≡ after) }
{}

/// The lines of a history grow by the line of each entry that has one, as a log does that is told the text of it.
pub fn law_of_lines()
    ensures none { (scene : Scene) → AreLinesOf scene [] [] }
    ensures more { (scene : Scene) (history : List Entry) (lines : List LogLine) (line : LogLine) (entry : Entry)
        → AreLinesOf scene history lines → IsLogLine line → Says scene line entry → is_unprinted entry.reply ≡ false
        → AreLinesOf scene (history ++ entry ∷ []) (lines ++ lines_of line.pass line.said) }
    ensures left_out { (scene : Scene) (history : List Entry) (lines : List LogLine) (entry : Entry)
        → AreLinesOf scene history lines → is_unprinted entry.reply ≡ true → AreLinesOf scene (history ++ entry ∷ []) lines }
{}

/// The lines of the passes of a history, each pass's in a list of its own with their places, make the lines of the whole history, merged.
pub fn law_of_merged_lines<E>()
    ensures { (pass : E → ℕ) (says : E → Option LogLine) (passes : ℕ) (entries : List E) → All (λ e. pass e < passes) entries
        → merged_all line_place (lists_by pass says 0 passes entries) ≡ chosen says 0 entries }
{}
