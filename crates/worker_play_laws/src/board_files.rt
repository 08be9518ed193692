//! What a history of a board leaves of the files of its components.

ghost use Rattle.std.specs.Prelude.{All, List, true, ◌≡◌, ℕ};
ghost use Rattle.omx_types.specs.declared.fault.PartFault.{PartFault};
ghost use Rattle.il_machine.specs.Acts.{Act as MachineAct, Reply as MachineReply};
ghost use Rattle.il_machine.specs.declared.answer.Progress.{Progress};
ghost use Rattle.il_machine.specs.Run.{Run};
ghost use Rattle.il_machine.specs.Sound.{Sound};
ghost use Rattle.il_machine.specs.World.{World};
ghost use Rattle.il_graph.specs.Shown.{Shown};
ghost use Rattle.turnstile.specs.declared.entry.Entry.{Entry};
ghost use Rattle.graph_acts.specs.Objects.{HasObjects};
ghost use Rattle.graph_acts.specs.Plain.{sight_of};
ghost use Rattle.board.specs.declared.asked.Asked.{Asked};
ghost use Rattle.board.specs.declared.asked.Told.{Told};
ghost use Rattle.board.specs.declared.watched.Watched.{Watched};
ghost use Rattle.board.specs.Asking.{ArePlain, bare_log};
ghost use Rattle.board.specs.Histories.{Legal, graph_of};
ghost use Rattle.work_signs.specs.declared.seat.Seat.{Seat};
ghost use Rattle.pass_book.specs.Seats.{IsOfPlay};
ghost use Rattle.play_course.specs.Failing.{HasFailure};
ghost use Rattle.play_run.specs.Playing.{HaveNoWork};
ghost use Rattle.worker_play_laws.specs.Files.{HaveStayed, ShowsSince, is_steady};

use conductor::PlayClient;
use note_queues::Client;
use outside_io::{Sink, Source};

/// After a legal history of acts of a play, from where no work is out to where none is, each component has the file object that it had at
/// first, read or written further, and each step that failed shows in its component's. By none of the acts a component is made or freed, or
/// comes a file.
pub fn law_of_board_files<S: Source, K: Sink>()
    ensures stayed { (seats : List Seat) (watched : Watched S K Progress) (first now : Shown S K Progress) (log : List (Entry (Asked S K Progress) (Told S K Progress)))
        (steps : List (MachineAct × MachineReply)) (world after : World)
        → Legal (sight_of ⟦<PlayClient as Client>⟧ S.Source K.Sink) watched log → graph_of watched ≡ first → HasObjects (graph_of watched) (bare_log log) now
        → All (λ e. IsOfPlay seats e.act.act) log → ArePlain (sight_of ⟦<PlayClient as Client>⟧ S.Source K.Sink) (bare_log log) steps
        → Sound world → Run world steps after → HaveNoWork world → HaveNoWork after
        → HaveStayed S.Source K.Sink first now }
    ensures shows { (seats : List Seat) (watched : Watched S K Progress) (first now : Shown S K Progress) (log : List (Entry (Asked S K Progress) (Told S K Progress)))
        (steps : List (MachineAct × MachineReply)) (world after : World)
        → Legal (sight_of ⟦<PlayClient as Client>⟧ S.Source K.Sink) watched log → graph_of watched ≡ first → HasObjects (graph_of watched) (bare_log log) now
        → All (λ e. IsOfPlay seats e.act.act) log → ArePlain (sight_of ⟦<PlayClient as Client>⟧ S.Source K.Sink) (bare_log log) steps
        → Sound world → Run world steps after → HaveNoWork world → HaveNoWork after
        → (place : ℕ) (fault : PartFault) → HasFailure steps place fault → ShowsSince S.Source K.Sink first now place fault }
    ensures steady { (seats : List Seat) (log : List (Entry (Asked S K Progress) (Told S K Progress))) (steps : List (MachineAct × MachineReply))
        → All (λ e. IsOfPlay seats e.act.act) log → ArePlain (sight_of ⟦<PlayClient as Client>⟧ S.Source K.Sink) (bare_log log) steps
        → All (λ step. is_steady step.0 ≡ true) steps }
{}
