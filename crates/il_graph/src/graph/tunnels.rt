//! Tunnels: an output and an input are joined and parted (OpenMAX IL 1.1.2, `OMX_SetupTunnel`).

ghost use Rattle.std.specs.Prelude.{◌≡◌, OnErr};
ghost use Rattle.il_machine.specs.Tunnels.{SetupTunnel, DropTunnel};
ghost use Rattle.il_machine.specs.Whole.{Steps};
ghost use Rattle.graph_core.specs.Entries.{look_of};
ghost use Rattle.il_graph.specs.Shown.{kept, KeepsAllFiles};
ghost use Rattle.graph_core.specs.Clients.{KeepsAllClients};
ghost use Rattle.il_graph.specs.HandedIn.{KeepsHandedIn};

use crate::graph::Graph;
use note_queues::Client;
use omx_types::{OmxError, PortId, Supplier};
use outside_io::{Sink, Source};

impl<S: Source, K: Sink, C: Client> Graph<S, K, C> {
    /// Joins an output to an input, and answers which end makes the headers.
    pub fn setup_tunnel(&mut self, output: PortId, input: PortId) -> Result<Supplier, OmxError>
        ensures step { Steps (kept C.progress self.old) (kept C.progress self.new) (λ w v. SetupTunnel w output input result v) }
        ensures held { KeepsHandedIn (look_of self.old.core) (look_of self.new.core) }
        ensures unchanged { OnErr result (self.new ≡ self.old) }
        ensures clients { KeepsAllClients self.old.core self.new.core }
        ensures files { KeepsAllFiles self.old self.new }
    {
        self.core.law_of_worlds();
        let Some(giver) = self.core.place_of(output.handle) else {
            return Err(OmxError::InvalidComponent);
        };
        let Some(taker) = self.core.place_of(input.handle) else {
            return Err(OmxError::InvalidComponent);
        };
        if let Some(error) = self
            .core
            .setup_refusal(giver, output.index, taker, input.index)
        {
            return Err(error);
        }
        let supplier = self
            .core
            .setup_tunnel(giver, output.index, taker, input.index);
        self.core.close_out();
        Ok(supplier)
    }

    /// Parts an output from the input that it is joined to.
    pub fn drop_tunnel(&mut self, output: PortId, input: PortId) -> Result<(), OmxError>
        ensures step { Steps (kept C.progress self.old) (kept C.progress self.new) (λ w v. DropTunnel w output input result v) }
        ensures held { KeepsHandedIn (look_of self.old.core) (look_of self.new.core) }
        ensures unchanged { OnErr result (self.new ≡ self.old) }
        ensures clients { KeepsAllClients self.old.core self.new.core }
        ensures files { KeepsAllFiles self.old self.new }
    {
        self.core.law_of_worlds();
        let Some(giver) = self.core.place_of(output.handle) else {
            return Err(OmxError::InvalidComponent);
        };
        let Some(taker) = self.core.place_of(input.handle) else {
            return Err(OmxError::InvalidComponent);
        };
        if let Some(error) = self
            .core
            .drop_refusal(giver, output.index, taker, input.index)
        {
            return Err(error);
        }
        self.core
            .drop_tunnel(giver, output.index, taker, input.index);
        self.core.close_out();
        Ok(())
    }
}
