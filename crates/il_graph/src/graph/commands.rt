//! Commands (OpenMAX IL 1.1.2, `OMX_SendCommand`).

ghost use Rattle.std.specs.Prelude.{◌≡◌, OnErr};
ghost use Rattle.il_machine.specs.Commands.{SendCommand, RunCommand};
ghost use Rattle.il_machine.specs.Whole.{Steps};
ghost use Rattle.graph_core.specs.Entries.{look_of};
ghost use Rattle.il_graph.specs.Shown.{kept, KeepsAllFiles};
ghost use Rattle.graph_core.specs.Clients.{KeepsAllClients};
ghost use Rattle.il_graph.specs.HandedIn.{KeepsHandedIn};
ghost use Rattle.il_graph.specs.Stood.{OnIdle};

use crate::graph::Graph;
use il_machine::{Acted, Why};
use note_queues::Client;
use omx_types::{Command, Handle, OmxError};
use outside_io::{Sink, Source};

impl<S: Source, K: Sink, C: Client> Graph<S, K, C> {
    /// Queues a command. StateSet(Invalid) is carried out at once.
    pub fn send_command(&mut self, h: Handle, command: Command) -> Result<(), OmxError>
        ensures step { Steps (kept C.progress self.old) (kept C.progress self.new) (λ w v. SendCommand w h command result v) }
        ensures held { KeepsHandedIn (look_of self.old.core) (look_of self.new.core) }
        ensures unchanged { OnErr result (self.new ≡ self.old) }
        ensures clients { KeepsAllClients self.old.core self.new.core }
        ensures files { KeepsAllFiles self.old self.new }
    {
        self.core.law_of_worlds();
        let Some(place) = self.core.place_of(h) else {
            return Err(OmxError::InvalidComponent);
        };
        if let Some(error) = self.core.send_refusal(place, command) {
            return Err(error);
        }
        self.core.send_command(place, command);
        self.core.close_out();
        Ok(())
    }

    /// Carries out the component's first command.
    pub fn run_command(&mut self, h: Handle) -> Result<Acted, OmxError>
        ensures step { Steps (kept C.progress self.old) (kept C.progress self.new) (λ w v. RunCommand w h result v) }
        ensures held { KeepsHandedIn (look_of self.old.core) (look_of self.new.core) }
        ensures unchanged { OnErr result (self.new ≡ self.old) }
        ensures idle { OnIdle result (self.new ≡ self.old) }
        ensures clients { KeepsAllClients self.old.core self.new.core }
        ensures files { KeepsAllFiles self.old self.new }
    {
        self.core.law_of_worlds();
        let Some(place) = self.core.place_of(h) else {
            return Err(OmxError::InvalidComponent);
        };
        if let Some(reason) = self.core.run_idle(place) {
            return Ok(Acted::Idle(reason));
        }
        self.core.run_command(place);
        self.core.close_out();
        Ok(Acted::Did)
    }
}
