//! What the machine's laws say of a history of turns, stated on a function that does nothing.
ghost use Rattle.std.specs.Prelude.{◌≡◌, ℕ, false, List};
ghost use Rattle.il_machine.specs.World.{World, no_world};
ghost use Rattle.il_machine.specs.Acts.{Act as MachineAct, Reply as MachineReply};
ghost use Rattle.il_machine.specs.Run.{Run};
ghost use Rattle.il_machine.specs.Whole.{Stands};
ghost use Rattle.il_graph.specs.Shown.{kept};
ghost use Rattle.turnstile.specs.declared.entry.Entry.{Entry};
ghost use Rattle.turnstile.specs.Entries.{Met};
ghost use Rattle.graph_acts.specs.Plain.{sight_of};
ghost use Rattle.board.specs.declared.asked.Asked.{Asked};
ghost use Rattle.board.specs.declared.asked.Told.{Told};
ghost use Rattle.board.specs.declared.watched.Watched.{Watched};
ghost use Rattle.board.specs.Asking.{ArePlain, bare_log};
ghost use Rattle.board.specs.Files.{FailOnce, HaveTheirFiles, LoseNone, ShowTheirFaults};
ghost use Rattle.board.specs.Histories.{Legal, MayAsk, graph_of};
ghost use Rattle.board.specs.Notes.{GiveNoHeaders, HasNoClientHeaders};
ghost use Rattle.board.specs.Together.{AreOneRun};

use note_queues::Client;
use outside_io::{Sink, Source};

/// A legal history of turns, behind any acts that lead from a graph without components to a world that the board's first graph stood for, is
/// one run of the machine with them.
pub fn law_of_histories<S: Source, K: Sink, C: Client>()
    ensures { (key units : ℕ) (earlier : List (MachineAct × MachineReply)) (world : World) (first : Watched S K C) (log : List (Entry (Asked S K C) (Told S K C)))
        → Run (no_world key units) earlier world → Stands (kept C.progress (graph_of first)) world → Legal (sight_of C.Client S.Source K.Sink) first log
        → (steps : List (MachineAct × MachineReply)) × ArePlain (sight_of C.Client S.Source K.Sink) (bare_log log) steps × AreOneRun key units earlier steps }
{}

/// After a legal history in which no file comes to a component, its file in the graph is the object that it had at first, read or written
/// further, and each fault that a step of it answered shows in the object. A component fails once. Where no component is made or freed, a
/// file that was there at first is there again once no work is out.
pub fn law_of_files<S: Source, K: Sink, C: Client>()
    ensures files { (first : Watched S K C) (log : List (Entry (Asked S K C) (Told S K C))) → Legal (sight_of C.Client S.Source K.Sink) first log → HaveTheirFiles (sight_of C.Client S.Source K.Sink) (graph_of first) (bare_log log) }
    ensures faults { (first : Watched S K C) (log : List (Entry (Asked S K C) (Told S K C))) → Legal (sight_of C.Client S.Source K.Sink) first log → ShowTheirFaults (sight_of C.Client S.Source K.Sink) (graph_of first) (bare_log log) }
    ensures there { (first : Watched S K C) (log : List (Entry (Asked S K C) (Told S K C))) → Legal (sight_of C.Client S.Source K.Sink) first log → LoseNone (sight_of C.Client S.Source K.Sink) (graph_of first) (bare_log log) }
    ensures once { (first : Watched S K C) (log : List (Entry (Asked S K C) (Told S K C))) → Legal (sight_of C.Client S.Source K.Sink) first log → FailOnce (bare_log log) }
{}

/// Where clients are given no headers, and no header of the first graph was at home with one, no reply of a legal history gives one: each
/// note that is taken tells an event.
pub fn law_of_event_notes<S: Source, K: Sink, C: Client>()
    ensures { (first : Watched S K C) (log : List (Entry (Asked S K C) (Told S K C))) → C.HEADERS ≡ false → HasNoClientHeaders (graph_of first)
        → Legal (sight_of C.Client S.Source K.Sink) first log → Met (MayAsk (sight_of C.Client S.Source K.Sink) C.HEADERS first) log → GiveNoHeaders (bare_log log) }
{}
