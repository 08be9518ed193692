//! Which failed step of a board's history is told.

ghost use Rattle.std.specs.Prelude.{All, List, None, Some, ◌<◌, ◌≡◌, ℕ, length};
ghost use Rattle.omx_types.specs.declared.fault.PartFault.{PartFault};
ghost use Rattle.il_machine.specs.Acts.{Act as MachineAct, Reply as MachineReply};
ghost use Rattle.il_machine.specs.declared.answer.Progress.{Progress};
ghost use Rattle.turnstile.specs.declared.entry.Entry.{Entry};
ghost use Rattle.graph_acts.specs.declared.act.Act.{Act};
ghost use Rattle.graph_acts.specs.declared.act.Reply.{Reply};
ghost use Rattle.graph_acts.specs.Plain.{sight_of};
ghost use Rattle.board.specs.declared.asked.Asked.{Asked};
ghost use Rattle.board.specs.declared.asked.Told.{Told};
ghost use Rattle.board.specs.Asking.{ArePlain, bare_log};
ghost use Rattle.work_signs.specs.declared.seat.Seat.{Seat};
ghost use Rattle.pass_book.specs.Seats.{IsOfPlay};
ghost use Rattle.play_worker.specs.declared.failure.Failure.{Failure};
ghost use Rattle.play_worker.specs.Failing.{HasFailed, TellsWorst};
ghost use Rattle.play_course.specs.Failing.{HasFailure, TellsFirst, fault_at};

use conductor::PlayClient;
use note_queues::Client;
use outside_io::{Sink, Source};

/// The steps that failed among the calls of passes are those that failed in the run of the machine. So the failure that comes first of all
/// calls is the one that is told of the run, and where there is none, no step failed. A component whose step failed has a seat.
pub fn law_of_board_failures<S: Source, K: Sink>()
    ensures failures { (log : List (Entry (Act S K Progress) (Reply S K Progress))) (steps : List (MachineAct × MachineReply))
        → ArePlain (sight_of ⟦<PlayClient as Client>⟧ S.Source K.Sink) log steps
        → (failure : Failure) → HasFailed log failure → HasFailure steps (failure.component).generation failure.fault }
    ensures back { (log : List (Entry (Act S K Progress) (Reply S K Progress))) (steps : List (MachineAct × MachineReply))
        → ArePlain (sight_of ⟦<PlayClient as Client>⟧ S.Source K.Sink) log steps
        → (place : ℕ) (fault : PartFault) → HasFailure steps place fault
        → (failure : Failure) × HasFailed log failure × ((failure.component).generation ≡ place) × (failure.fault ≡ fault) }
    ensures tells { (log : List (Entry (Act S K Progress) (Reply S K Progress))) (steps : List (MachineAct × MachineReply))
        → ArePlain (sight_of ⟦<PlayClient as Client>⟧ S.Source K.Sink) log steps
        → (failure : Failure) → TellsWorst log (Some failure) → TellsFirst steps (fault_at (failure.component).generation failure.fault) }
    ensures none { (log : List (Entry (Act S K Progress) (Reply S K Progress))) (steps : List (MachineAct × MachineReply))
        → ArePlain (sight_of ⟦<PlayClient as Client>⟧ S.Source K.Sink) log steps
        → TellsWorst log None → (place : ℕ) (fault : PartFault) → HasFailure steps place fault → ⊥ }
    ensures place { (seats : List Seat) (log : List (Entry (Asked S K Progress) (Told S K Progress))) (steps : List (MachineAct × MachineReply))
        → All (λ e. IsOfPlay seats e.act.act) log → ArePlain (sight_of ⟦<PlayClient as Client>⟧ S.Source K.Sink) (bare_log log) steps
        → (place : ℕ) (fault : PartFault) → HasFailure steps place fault → place < length seats }
{}
