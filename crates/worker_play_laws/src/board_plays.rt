//! The history of a board is that of a play.

ghost use Rattle.std.specs.Prelude.{ℕ, Bool, List, length};
ghost use Rattle.omx_types.specs.declared.handle.Handle.{Handle};
ghost use Rattle.il_machine.specs.Acts.{Act as MachineAct, Reply as MachineReply};
ghost use Rattle.il_machine.specs.Whole.{Stands};
ghost use Rattle.il_machine.specs.World.{World};
ghost use Rattle.il_graph.specs.Shown.{Shown, kept};
ghost use Rattle.turnstile.specs.declared.entry.Entry.{Entry};
ghost use Rattle.turnstile.specs.declared.view.View.{View};
ghost use Rattle.turnstile.specs.Entries.{own};
ghost use Rattle.graph_acts.specs.declared.act.Act.{Act};
ghost use Rattle.graph_acts.specs.declared.act.Reply.{Reply};
ghost use Rattle.graph_acts.specs.Plain.{sight_of};
ghost use Rattle.board.specs.declared.asked.Asked.{Asked};
ghost use Rattle.board.specs.declared.asked.Told.{Told};
ghost use Rattle.board.specs.declared.watched.Watched.{Watched};
ghost use Rattle.board.specs.Asking.{ArePlain, bare_log};
ghost use Rattle.board.specs.Boards.{Closed, HasAllBack};
ghost use Rattle.board.specs.Histories.{graph_of};
ghost use Rattle.worker_play_laws.specs.Entries.{entries_of};
ghost use Rattle.work_signs.specs.declared.seat.Seat.{Seat};
ghost use Rattle.work_signs.specs.Seats.{AreSeatsOf};
ghost use Rattle.conductor.specs.Hearing.{ConductorValue};
ghost use Rattle.play_build_laws.specs.Stages.{IsStage, Joining};
ghost use Rattle.play_forms.specs.Plans.{PlanValue};
ghost use Rattle.play_graph.specs.Stops.{HasNoneOut};
ghost use Rattle.play_plan_laws.specs.Assemblies.{IsReady, PlayFiles, assembly_of};
ghost use Rattle.play_result_laws.specs.Passes.{own_steps};
ghost use Rattle.play_result_laws.specs.Rounds.{IsConducting, IsHalted};
ghost use Rattle.play_history_laws.specs.Worked.{conducts};
ghost use Rattle.worker_play_laws.specs.Histories.{IsBoardPlay, IsPlayedBy};

use note_queues::Client;
use outside_io::{Sink, Source};

/// The closed history of a board that was made of a plan's assembled graph is a play of the plan. What pass 0 conducted by its own calls it
/// conducted in that play, and it was never halted. Where all came back, no work and no client object is out of the world that was reached.
pub fn law_of_board_plays<S: Source, K: Sink, C: Client>()
    ensures plays { (plan : PlanValue) (files : PlayFiles) (handles : List Handle) (seats : List Seat) (workers : ℕ) (headers : Bool) (world : World)
        (watched : Watched S K C) (root : View (Watched S K C) (Asked S K C) (Told S K C)) (now : Shown S K C)
        → IsReady plan files → IsStage (assembly_of plan files) (Joining (length plan.joints)) handles world → Stands (kept C.progress (graph_of watched)) world
        → AreSeatsOf plan.parts handles seats → (closed : Closed (sight_of C.Client S.Source K.Sink) headers watched root now)
        → IsPlayedBy (sight_of C.Client S.Source K.Sink) seats workers closed.log
        → IsBoardPlay (sight_of C.Client S.Source K.Sink) plan files handles workers world (bare_log closed.log) now }
    ensures conducted { (plan : PlanValue) (files : PlayFiles) (handles : List Handle) (workers : ℕ) (world : World) (log : List (Entry (Asked S K C) (Told S K C))) (now : Shown S K C)
        → (play : IsBoardPlay (sight_of C.Client S.Source K.Sink) plan files handles workers world (bare_log log) now) → (value : ConductorValue)
        → ((steps : List (MachineAct × MachineReply)) → ArePlain (sight_of C.Client S.Source K.Sink) (bare_log (own 0 log)) steps → IsConducting plan files handles steps value)
        → IsConducting plan files handles (own_steps conducts (entries_of (bare_log log) play.steps)) value }
    ensures halted { (plan : PlanValue) (files : PlayFiles) (handles : List Handle) (workers : ℕ) (world : World) (log : List (Entry (Asked S K C) (Told S K C))) (now : Shown S K C)
        → IsBoardPlay (sight_of C.Client S.Source K.Sink) plan files handles workers world (bare_log log) now
        → ((steps : List (MachineAct × MachineReply)) → ArePlain (sight_of C.Client S.Source K.Sink) (bare_log (own 0 log)) steps → IsHalted plan files handles steps) → ⊥ }
    ensures idle { (plan : PlanValue) (files : PlayFiles) (handles : List Handle) (workers : ℕ) (world : World) (log : List (Entry (Act S K C) (Reply S K C))) (now : Shown S K C)
        → (play : IsBoardPlay (sight_of C.Client S.Source K.Sink) plan files handles workers world log now) → HasAllBack now → HasNoneOut play.after }
{}
