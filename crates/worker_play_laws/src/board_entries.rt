//! What must hold of the entries of a board's history, stated on a function that does nothing.

ghost use Rattle.std.specs.Prelude.{All, List, Some, [], slice_get, ◌==◌, ◌≡◌, ◌≤◌, ◌<◌, ℕ};
ghost use Rattle.il_machine.specs.Acts.{Act as MachineAct, Reply as MachineReply};
ghost use Rattle.turnstile.specs.declared.entry.Entry.{Entry};
ghost use Rattle.turnstile.specs.Entries.{own};
ghost use Rattle.graph_acts.specs.declared.act.Act.{Act};
ghost use Rattle.graph_acts.specs.declared.act.Reply.{Reply};
ghost use Rattle.graph_acts.specs.Plain.{sight_of};
ghost use Rattle.board.specs.Asking.{ArePlain, IsPlain};
ghost use Rattle.play_log.specs.Entries.{Entry as LogEntry, steps_of};
ghost use Rattle.play_result_laws.specs.Passes.{own_steps};
ghost use Rattle.worker_play_laws.specs.Entries.{entries_of, log_entry};

use note_queues::Client;
use outside_io::{Sink, Source};

/// The steps of the entries are those of the history as the machine has it. Those of one pass stand for that pass's own entries. Each entry
/// stands at the place of the history's, with its pass, and is what that is for the machine; and where no pass above a number has an entry,
/// each is of a pass up to it.
pub fn law_of_board_entries<S: Source, K: Sink, C: Client>()
    ensures steps { (log : List (Entry (Act S K C) (Reply S K C))) (steps : List (MachineAct × MachineReply)) → ArePlain (sight_of C.Client S.Source K.Sink) log steps
        → steps_of (entries_of log steps) ≡ steps }
    ensures own { (log : List (Entry (Act S K C) (Reply S K C))) (steps : List (MachineAct × MachineReply)) → ArePlain (sight_of C.Client S.Source K.Sink) log steps
        → (number : ℕ) → ArePlain (sight_of C.Client S.Source K.Sink) (own number log) (own_steps (λ pass. pass == number) (entries_of log steps)) }
    ensures each { (log : List (Entry (Act S K C) (Reply S K C))) (steps : List (MachineAct × MachineReply)) → ArePlain (sight_of C.Client S.Source K.Sink) log steps
        → (place : ℕ) (entry : LogEntry) → slice_get (entries_of log steps) place ≡ Some entry
        → (e : Entry (Act S K C) (Reply S K C)) × (step : MachineAct × MachineReply) × (slice_get log place ≡ Some e)
        × IsPlain (sight_of C.Client S.Source K.Sink) e step × (entry ≡ log_entry e step) }
    ensures few { (log : List (Entry (Act S K C) (Reply S K C))) (steps : List (MachineAct × MachineReply)) → ArePlain (sight_of C.Client S.Source K.Sink) log steps
        → (most : ℕ) → ((pass : ℕ) → most < pass → own pass log ≡ []) → All (λ entry. entry.pass ≤ most) (entries_of log steps) }
{}
