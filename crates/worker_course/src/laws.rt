//! What a play by workers leaves, stated on functions that do nothing.

ghost use Rattle.std.specs.Prelude.{◌≡◌, ◌≤◌, ◌<◌, ◌^◌, ℕ, true, false, All, List, Option, IfSome, length, map};
ghost use Rattle.audio_parts.specs.declared.part_file.PartFile.{PartFile};
ghost use Rattle.il_machine.specs.declared.answer.Progress.{Progress};
ghost use Rattle.il_machine.specs.Whole.{Always};
ghost use Rattle.il_graph.specs.Shown.{Shown, TellWritten};
ghost use Rattle.board.specs.Boards.{HasAllBack};
ghost use Rattle.conducting_thread.specs.Seating.{AreSeatsFor};
ghost use Rattle.play_build_laws.specs.Dismantling.{AreLinks};
ghost use Rattle.play_forms.specs.Plans.{PlanValue};
ghost use Rattle.play_plan_laws.specs.Endings.{HasEnded, ends_of};
ghost use Rattle.play_log.specs.Lines.{log_text};
ghost use Rattle.play_log.specs.Merged.{merged_all};
ghost use Rattle.play_log.specs.Places.{AreKeptAt, PlacedLine, line_place};
ghost use Rattle.play_course.specs.declared.player.RunFault.TheVariants.{OutOfMemory};
ghost use Rattle.play_course.specs.Running.{AreSameFiles};
ghost use Rattle.play_graph.specs.Ending.{AreFilesOf, StandsFor};
ghost use Rattle.play_graph.specs.Graphs.{kept_of};
ghost use Rattle.play_graph.specs.Stops.{HasStopped};
ghost use Rattle.work_signs.specs.declared.seat.Seat.{Seat};
ghost use Rattle.play_workers.specs.declared.ran.Ran.{Ran};
ghost use Rattle.worker_course.specs.Answers.{IsBrokenOff, IsDone};
ghost use Rattle.worker_course.specs.Reasons.{reason_of};
ghost use Rattle.worker_course.specs.Runs.{HasRun, IsMadeFrom};
ghost use Rattle.worker_course.specs.Seated.{AreSeated};
ghost use Rattle.worker_course.specs.Sights.{all_seen};

use conductor::PlayClient;
use outside_io::{Sink, Source};
use play_graph::law_of_stops;
use play_history_laws::{law_of_left_plays, law_of_worked_plays};
use play_worker::Gate;
use worker_play_laws::{
    law_of_board_failures, law_of_board_files, law_of_board_gates, law_of_board_logs,
    law_of_board_plays, law_of_left_files,
};

/// A graph that was made can be played, for nothing is out of it; or stopped, and each file that goes back is then as it was.
pub(crate) fn law_of_made_graphs<S: Source, K: Sink>()
    ensures back { (plan : PlanValue) (before : List (Option (PartFile S K))) (graph : Shown S K Progress) → IsMadeFrom S.Source K.Sink plan before graph → HasAllBack graph }
    ensures seated { (plan : PlanValue) (before : List (Option (PartFile S K))) (graph : Shown S K Progress) → IsMadeFrom S.Source K.Sink plan before graph
        → (seats : List Seat) → AreSeated plan graph seats → AreSeatsFor plan seats }
    ensures fits { (plan : PlanValue) (before : List (Option (PartFile S K))) (graph : Shown S K Progress) → IsMadeFrom S.Source K.Sink plan before graph
        → (length plan.joints ≤ 1024) × AreLinks (ends_of plan) (length plan.joints) }
    ensures stops { (plan : PlanValue) (before : List (Option (PartFile S K))) (graph : Shown S K Progress) → IsMadeFrom S.Source K.Sink plan before graph
        → StandsFor (HasStopped plan 0) graph }
    ensures untouched { (plan : PlanValue) (before after : List (Option (PartFile S K))) (graph : Shown S K Progress) → IsMadeFrom S.Source K.Sink plan before graph
        → length after ≡ length plan.parts → AreFilesOf graph (length plan.parts) after
        → AreSameFiles (all_seen S.Source K.Sink before) (all_seen S.Source K.Sink after) × IsBrokenOff plan (all_seen S.Source K.Sink before) (all_seen S.Source K.Sink after) OutOfMemory }
{
    law_of_left_plays();
    law_of_stops();
}

/// A graph that workers led can be ended where the one who conducts says that all is over, and always be stopped. What then came back of its
/// files is what a play leaves that wasn't done whole; or, with the text of its pages, what one leaves that was.
pub(crate) fn law_of_worker_runs<S: Source, K: Sink, G: Gate>()
    ensures fits { (plan : PlanValue) (workers : ℕ) (before : List (Option (PartFile S K))) (ran : Ran S K Progress G) → HasRun S.Source K.Sink G.counts plan workers before ran
        → (length plan.parts ≤ 32) × (length plan.joints ≤ 1024) × AreLinks (ends_of plan) (length plan.joints) }
    ensures placed { (plan : PlanValue) (workers : ℕ) (before : List (Option (PartFile S K))) (ran : Ran S K Progress G) → HasRun S.Source K.Sink G.counts plan workers before ran
        → IfSome ran.worst (λ failure. failure.component.generation < 2 ^ 32) }
    ensures ends { (plan : PlanValue) (workers : ℕ) (before : List (Option (PartFile S K))) (ran : Ran S K Progress G) → HasRun S.Source K.Sink G.counts plan workers before ran
        → ran.ended ≡ true → StandsFor (HasEnded plan) ran.graph }
    ensures stops { (plan : PlanValue) (workers : ℕ) (before : List (Option (PartFile S K))) (ran : Ran S K Progress G) → HasRun S.Source K.Sink G.counts plan workers before ran
        → StandsFor (HasStopped plan 0) ran.graph }
    ensures left { (plan : PlanValue) (workers : ℕ) (before after : List (Option (PartFile S K))) (ran : Ran S K Progress G) → HasRun S.Source K.Sink G.counts plan workers before ran
        → Always (kept_of ran.graph) (TellWritten K.told ran.graph) → length after ≡ length plan.parts → AreFilesOf ran.graph (length plan.parts) after
        → AreSameFiles (all_seen S.Source K.Sink before) (all_seen S.Source K.Sink after) × IsBrokenOff plan (all_seen S.Source K.Sink before) (all_seen S.Source K.Sink after) (reason_of ran.worst)
        × IsBrokenOff plan (all_seen S.Source K.Sink before) (all_seen S.Source K.Sink after) OutOfMemory }
    ensures done { (plan : PlanValue) (workers : ℕ) (before after : List (Option (PartFile S K))) (ran : Ran S K Progress G) → HasRun S.Source K.Sink G.counts plan workers before ran
        → Always (kept_of ran.graph) (TellWritten K.told ran.graph) → length after ≡ length plan.parts → AreFilesOf ran.graph (length plan.parts) after
        → ran.ended ≡ true → All (λ page. page.broken ≡ false) ran.pages.items → (text : List ℕ)
        → ((lists : List (List PlacedLine)) → AreKeptAt lists ran.pages.items → text ≡ log_text (map (λ line. line.line) (merged_all line_place lists)))
        → IsDone G.counts workers plan (all_seen S.Source K.Sink before) (all_seen S.Source K.Sink after) text ran.gates.items }
{
    law_of_board_plays::<S, K, PlayClient>();
    law_of_board_logs::<S, K, PlayClient>();
    law_of_board_gates::<S, K, PlayClient, G>();
    law_of_board_files::<S, K>();
    law_of_board_failures::<S, K>();
    law_of_left_files::<S, K>();
    law_of_worked_plays();
    law_of_left_plays();
    law_of_stops();
}
