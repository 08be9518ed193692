//! What the log of a play is good for, stated on a function that does nothing.

ghost use Rattle.std.specs.Prelude.{ℕ, List};
ghost use Rattle.outside_io.specs.Files.{Outside};
ghost use Rattle.il_machine.specs.World.{World};
ghost use Rattle.play_forms.specs.Plans.{PlanValue};
ghost use Rattle.play_plan_laws.specs.Assemblies.{PlayFiles};
ghost use Rattle.play_log.specs.Entries.{Entry};
ghost use Rattle.play_log.specs.Kept.{LogValue};
ghost use Rattle.play_log.specs.Logged.{IsLogged, Keeps};
ghost use Rattle.play_log.specs.Scenes.{Scene};
ghost use Rattle.play_result_laws.specs.Results.{IsLogOf};
ghost use Rattle.play_run.specs.Logging.{HaveWritten, IsKeptTo, IsNamedTo};

/// The text that a log of a whole play ends with is that of its acts, and names them, from where it begins to its ending. It is the play's log where
/// each sink's file has what went into it in that ending.
pub fn law_of_play_logs()
    ensures names { (plan : PlanValue) (files : PlayFiles) (log : LogValue) (text : List ℕ) (ending : World) → IsKeptTo plan files log ending
        → ((scene : Scene) (history : List Entry) → Keeps scene history log → IsLogged scene history text) → IsNamedTo plan files text ending }
    ensures joins { (plan : PlanValue) (files : PlayFiles) (new : Outside) (text : List ℕ) (ending : World)
        → IsNamedTo plan files text ending → HaveWritten plan.parts new ending → IsLogOf 0 plan files new text }
{}
