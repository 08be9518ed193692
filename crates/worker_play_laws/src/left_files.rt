//! What a play by workers leaves of its files. Stated on functions that do nothing.

ghost use Rattle.std.specs.Prelude.{List, Option, ℕ};
ghost use Rattle.omx_types.specs.declared.fault.PartFault.{PartFault};
ghost use Rattle.il_machine.specs.Acts.{Act, Reply};
ghost use Rattle.il_machine.specs.declared.answer.Progress.{Progress};
ghost use Rattle.il_machine.specs.World.{World};
ghost use Rattle.audio_parts.specs.declared.part_file.PartFile.{PartFile};
ghost use Rattle.il_graph.specs.Shown.{Shown};
ghost use Rattle.play_forms.specs.Plain.{sink_text};
ghost use Rattle.play_forms.specs.Plans.{PlanValue};
ghost use Rattle.play_plan_laws.specs.Assemblies.{PlayFiles};
ghost use Rattle.play_plan_laws.specs.Endings.{IsPlayedOut};
ghost use Rattle.play_result_laws.specs.Files.{AreSamples, IsWriter};
ghost use Rattle.play_result_laws.specs.Results.{IsPlayLog};
ghost use Rattle.play_result_laws.specs.Texts.{HasWrittenFront};
ghost use Rattle.play_result_laws.specs.Worlds.{HasWritten};
ghost use Rattle.play_files.specs.Seen.{file_seen, files_seen};
ghost use Rattle.play_course.specs.declared.player.RunFault.{RunFault};
ghost use Rattle.play_course.specs.Failing.{HasFailure, LeavesWorld, TellsFirst};
ghost use Rattle.play_course.specs.Players.{IsFailed, IsPlayedWhole};
ghost use Rattle.play_course.specs.Running.{AreSameFiles, HasTaken, IsRunCause};
ghost use Rattle.worker_play_laws.specs.Files.{ShowsSince};
ghost use Rattle.worker_play_laws.specs.Leaving.{IsLeftWith};

use outside_io::{Sink, Source};

/// Of a play that was stopped: each file is at its place again (`same`), and a sink took what was written to it (`took`). Where that is each
/// sink's text, and the log is one of a play that is over, the play was done whole (`whole`); where it is a front of each, it failed so
/// (`failed`). Where each failed step shows in a file object, the world is one that a run left (`left`), and the fault that is told has its
/// cause in a file (`cause`).
pub fn law_of_left_files<S: Source, K: Sink>()
    ensures same { (plan : PlanValue) (given : PlayFiles) (first now : Shown S K Progress) (entries back : List (Option (PartFile S K))) (steps : List (Act × Reply)) (world : World)
        → IsLeftWith S.Source K.Sink plan given first now entries back steps world
        → AreSameFiles (files_seen (file_seen S.Source K.Sink) entries) (files_seen (file_seen S.Source K.Sink) back) }
    ensures took { (plan : PlanValue) (given : PlayFiles) (first now : Shown S K Progress) (entries back : List (Option (PartFile S K))) (steps : List (Act × Reply)) (world : World)
        → IsLeftWith S.Source K.Sink plan given first now entries back steps world → (place : ℕ) (name : List ℕ) → IsWriter plan.parts place name
        → (bytes : List ℕ) × HasTaken (files_seen (file_seen S.Source K.Sink) entries) (files_seen (file_seen S.Source K.Sink) back) place bytes × HasWritten world place bytes }
    ensures whole { (plan : PlanValue) (given : PlayFiles) (first now : Shown S K Progress) (entries back : List (Option (PartFile S K))) (steps : List (Act × Reply)) (world : World)
        → IsLeftWith S.Source K.Sink plan given first now entries back steps world
        → (workers : ℕ) (text : List ℕ) → IsPlayLog workers plan given text world → IsPlayedOut plan world
        → ((samples : List (List ℕ)) → AreSamples plan given samples → (place : ℕ) (name : List ℕ) → IsWriter plan.parts place name
        → HasWritten world place (sink_text plan samples place))
        → IsPlayedWhole workers plan given (files_seen (file_seen S.Source K.Sink) entries) (files_seen (file_seen S.Source K.Sink) back) text }
    ensures failed { (plan : PlanValue) (given : PlayFiles) (first now : Shown S K Progress) (entries back : List (Option (PartFile S K))) (steps : List (Act × Reply)) (world : World)
        → IsLeftWith S.Source K.Sink plan given first now entries back steps world
        → ((samples : List (List ℕ)) → AreSamples plan given samples → (place : ℕ) (name : List ℕ) → IsWriter plan.parts place name
        → HasWrittenFront world place (sink_text plan samples place))
        → IsFailed plan given (files_seen (file_seen S.Source K.Sink) entries) (files_seen (file_seen S.Source K.Sink) back) }
    ensures left { (plan : PlanValue) (given : PlayFiles) (first now : Shown S K Progress) (entries back : List (Option (PartFile S K))) (steps : List (Act × Reply)) (world : World)
        → IsLeftWith S.Source K.Sink plan given first now entries back steps world
        → ((place : ℕ) (why : PartFault) → HasFailure steps place why → ShowsSince S.Source K.Sink first now place why)
        → (fault : RunFault) → TellsFirst steps fault
        → LeavesWorld plan given (files_seen (file_seen S.Source K.Sink) entries) (files_seen (file_seen S.Source K.Sink) back) fault }
    ensures cause { (plan : PlanValue) (given : PlayFiles) (first now : Shown S K Progress) (entries back : List (Option (PartFile S K))) (steps : List (Act × Reply)) (world : World)
        → IsLeftWith S.Source K.Sink plan given first now entries back steps world
        → ((place : ℕ) (why : PartFault) → HasFailure steps place why → ShowsSince S.Source K.Sink first now place why)
        → (fault : RunFault) → TellsFirst steps fault
        → IsRunCause (files_seen (file_seen S.Source K.Sink) entries) (files_seen (file_seen S.Source K.Sink) back) fault }
{}
