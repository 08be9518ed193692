//! The lines that the passes kept are the log of that play.

ghost use Rattle.std.specs.Prelude.{◌≡◌, ◌+◌, ◌≤◌, ℕ, false, List};
ghost use Rattle.omx_types.specs.declared.handle.Handle.{Handle};
ghost use Rattle.il_machine.specs.Whole.{Stands};
ghost use Rattle.il_machine.specs.World.{World};
ghost use Rattle.il_graph.specs.Shown.{Shown, kept};
ghost use Rattle.turnstile.specs.declared.entry.Entry.{Entry};
ghost use Rattle.turnstile.specs.Entries.{Met};
ghost use Rattle.graph_acts.specs.Plain.{sight_of};
ghost use Rattle.board.specs.declared.asked.Asked.{Asked};
ghost use Rattle.board.specs.declared.asked.Told.{Told};
ghost use Rattle.board.specs.declared.watched.Watched.{Watched};
ghost use Rattle.board.specs.Asking.{bare_log};
ghost use Rattle.board.specs.Boards.{HasAllBack};
ghost use Rattle.board.specs.Histories.{Legal, MayAsk, graph_of};
ghost use Rattle.worker_play_laws.specs.Entries.{entries_of};
ghost use Rattle.work_signs.specs.declared.seat.Seat.{Seat};
ghost use Rattle.work_signs.specs.Seats.{AreSeatsOf};
ghost use Rattle.pass_book.specs.Seats.{names_of};
ghost use Rattle.conductor.specs.declared.phase.Phase.TheVariants.{Over};
ghost use Rattle.conductor.specs.Hearing.{ConductorValue};
ghost use Rattle.conductor.specs.Phases.{Conducts};
ghost use Rattle.play_forms.specs.Plans.{PlanValue};
ghost use Rattle.play_log.specs.Logged.{IsLogged};
ghost use Rattle.play_log.specs.Scenes.{scene_of};
ghost use Rattle.play_plan_laws.specs.Assemblies.{PlayFiles};
ghost use Rattle.play_plan_laws.specs.Endings.{IsPlayedOut};
ghost use Rattle.play_result_laws.specs.Passes.{own_steps};
ghost use Rattle.play_result_laws.specs.Results.{IsPlayLog};
ghost use Rattle.play_result_laws.specs.Rounds.{IsConducting};
ghost use Rattle.play_history_laws.specs.Worked.{conducts};
ghost use Rattle.worker_play_laws.specs.Histories.{IsBoardPlay, IsPlayedBy};
ghost use Rattle.worker_play_laws.specs.Lines.{HaveLogLines, merged_text};

use note_queues::Client;
use outside_io::{Sink, Source};

/// Where clients are given no headers, and one conducted so far, the lines of all passes, merged by place, are those of the whole history: an
/// act without a line is one that a log leaves out. Where that one says that all is over they are the log of the play by so many workers; and
/// where no client object is out then, the play was done whole.
pub fn law_of_board_logs<S: Source, K: Sink, C: Client>()
    ensures logged { (plan : PlanValue) (files : PlayFiles) (handles : List Handle) (seats : List Seat) (workers : ℕ) (world : World) (watched : Watched S K C)
        (log : List (Entry (Asked S K C) (Told S K C))) (now : Shown S K C)
        → (play : IsBoardPlay (sight_of C.Client S.Source K.Sink) plan files handles workers world (bare_log log) now)
        → AreSeatsOf plan.parts handles seats → Stands (kept C.progress (graph_of watched)) world → C.HEADERS ≡ false
        → Legal (sight_of C.Client S.Source K.Sink) watched log → Met (MayAsk (sight_of C.Client S.Source K.Sink) C.HEADERS watched) log
        → IsPlayedBy (sight_of C.Client S.Source K.Sink) seats workers log → HaveLogLines (names_of seats) log
        → (value : ConductorValue) → IsConducting plan files handles (own_steps conducts (entries_of (bare_log log) play.steps)) value
        → IsLogged (scene_of plan.parts world) (entries_of (bare_log log) play.steps) (merged_text (names_of seats) (workers + 1) log) }
    ensures whole { (plan : PlanValue) (files : PlayFiles) (handles : List Handle) (seats : List Seat) (workers : ℕ) (world : World) (watched : Watched S K C)
        (log : List (Entry (Asked S K C) (Told S K C))) (now : Shown S K C)
        → (play : IsBoardPlay (sight_of C.Client S.Source K.Sink) plan files handles workers world (bare_log log) now)
        → AreSeatsOf plan.parts handles seats → Stands (kept C.progress (graph_of watched)) world → C.HEADERS ≡ false
        → Legal (sight_of C.Client S.Source K.Sink) watched log → Met (MayAsk (sight_of C.Client S.Source K.Sink) C.HEADERS watched) log
        → IsPlayedBy (sight_of C.Client S.Source K.Sink) seats workers log → HaveLogLines (names_of seats) log
        → (value : ConductorValue) → IsConducting plan files handles (own_steps conducts (entries_of (bare_log log) play.steps)) value
        → (next : ConductorValue) → Conducts value Over next → 1 ≤ workers → IsPlayLog workers plan files (merged_text (names_of seats) (workers + 1) log) play.after }
    ensures ended { (plan : PlanValue) (files : PlayFiles) (handles : List Handle) (workers : ℕ) (world : World)
        (log : List (Entry (Asked S K C) (Told S K C))) (now : Shown S K C)
        → (play : IsBoardPlay (sight_of C.Client S.Source K.Sink) plan files handles workers world (bare_log log) now)
        → (value : ConductorValue) → IsConducting plan files handles (own_steps conducts (entries_of (bare_log log) play.steps)) value
        → (next : ConductorValue) → Conducts value Over next → HasAllBack now → IsPlayedOut plan play.after }
{}
