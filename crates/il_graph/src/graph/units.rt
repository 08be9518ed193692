//! Units: the first that waits for them gets them, and the weakest that holds some loses them.

ghost use Rattle.std.specs.Prelude.{◌≡◌};
ghost use Rattle.il_machine.specs.Units.{Grant, Preempt};
ghost use Rattle.il_machine.specs.Whole.{Steps};
ghost use Rattle.graph_core.specs.Entries.{look_of};
ghost use Rattle.il_graph.specs.Shown.{kept, KeepsAllFiles};
ghost use Rattle.graph_core.specs.Clients.{KeepsAllClients};
ghost use Rattle.il_graph.specs.HandedIn.{KeepsHandedIn};
ghost use Rattle.il_graph.specs.Stood.{OnNoGrant, OnNoVictim};

use crate::graph::Graph;
use il_machine::{Granted, Preempted};
use note_queues::Client;
use outside_io::{Sink, Source};

impl<S: Source, K: Sink, C: Client> Graph<S, K, C> {
    /// The first that waits for units gets them, is told so, and goes on to Idle.
    pub fn grant(&mut self) -> Granted
        ensures step { Steps (kept C.progress self.old) (kept C.progress self.new) (λ w v. Grant w result v) }
        ensures held { KeepsHandedIn (look_of self.old.core) (look_of self.new.core) }
        ensures idle { OnNoGrant result (self.new ≡ self.old) }
        ensures clients { KeepsAllClients self.old.core self.new.core }
        ensures files { KeepsAllFiles self.old self.new }
    {
        self.core.law_of_worlds();
        if let Some(reason) = self.core.grant_idle() {
            return Granted::Idle(reason);
        }
        let waiter = self.core.grant();
        self.core.close_out();
        Granted::Granted(waiter)
    }

    /// Units are taken for the first that waits for them: of those that hold some, and whose priority number is above its own, the one
    /// with the greatest loses them, and goes to Loaded.
    pub fn preempt(&mut self) -> Preempted
        ensures step { Steps (kept C.progress self.old) (kept C.progress self.new) (λ w v. Preempt w result v) }
        ensures held { KeepsHandedIn (look_of self.old.core) (look_of self.new.core) }
        ensures idle { OnNoVictim result (self.new ≡ self.old) }
        ensures clients { KeepsAllClients self.old.core self.new.core }
        ensures files { KeepsAllFiles self.old self.new }
    {
        self.core.law_of_worlds();
        if let Some(reason) = self.core.preempt_idle() {
            return Preempted::Idle(reason);
        }
        let victim = self.core.preempt();
        self.core.close_out();
        Preempted::Victim(victim)
    }
}
