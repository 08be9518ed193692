//! The end that supplies a tunnel makes and unmakes its headers.

ghost use Rattle.std.specs.Prelude.{◌≡◌, OnErr, IfErr};
ghost use Rattle.il_machine.specs.Flow.{Supply, Release};
ghost use Rattle.il_machine.specs.Whole.{Steps};
ghost use Rattle.graph_core.specs.Entries.{look_of};
ghost use Rattle.il_graph.specs.Shown.{kept, KeepsAllFiles};
ghost use Rattle.graph_core.specs.Clients.{KeepsAllClients};
ghost use Rattle.il_graph.specs.HandedIn.{KeepsHandedIn};
ghost use Rattle.il_graph.specs.Stood.{IsRefusal, OnIdle};

use crate::graph::Graph;
use il_machine::Acted;
use note_queues::Client;
use omx_types::{CallError, Handle, OmxError};
use outside_io::{Sink, Source};

impl<S: Source, K: Sink, C: Client> Graph<S, K, C> {
    /// The port makes a header for both ends of its tunnel, with a block of the graph's.
    pub fn supply(&mut self, h: Handle, port: u32) -> Result<Acted, CallError>
        ensures step { Steps (kept C.progress self.old) (kept C.progress self.new) (λ w v. Supply w h port result v) }
        ensures refusal { IfErr result IsRefusal }
        ensures held { KeepsHandedIn (look_of self.old.core) (look_of self.new.core) }
        ensures clients { KeepsAllClients self.old.core self.new.core }
        ensures files { KeepsAllFiles self.old self.new }
        ensures unchanged { OnErr result (self.new ≡ self.old) }
        ensures idle { OnIdle result (self.new ≡ self.old) }
    {
        self.core.law_of_worlds();
        let Some(place) = self.core.place_of(h) else {
            return Err(CallError::Omx(OmxError::InvalidComponent));
        };
        if !self.core.has_port(place, port) {
            return Err(CallError::Omx(OmxError::BadPortIndex));
        }
        if let Some(reason) = self.core.supply_idle(place, port) {
            return Ok(Acted::Idle(reason));
        }
        self.core.supply(place, port);
        self.core.close_out();
        Ok(Acted::Did)
    }

    /// The port unmakes the front one of the headers that it has, those of todo before those of done.
    pub fn release(&mut self, h: Handle, port: u32) -> Result<Acted, OmxError>
        ensures step { Steps (kept C.progress self.old) (kept C.progress self.new) (λ w v. Release w h port result v) }
        ensures held { KeepsHandedIn (look_of self.old.core) (look_of self.new.core) }
        ensures clients { KeepsAllClients self.old.core self.new.core }
        ensures files { KeepsAllFiles self.old self.new }
        ensures unchanged { OnErr result (self.new ≡ self.old) }
        ensures idle { OnIdle result (self.new ≡ self.old) }
    {
        self.core.law_of_worlds();
        let Some(place) = self.core.place_of(h) else {
            return Err(OmxError::InvalidComponent);
        };
        if !self.core.has_port(place, port) {
            return Err(OmxError::BadPortIndex);
        }
        if let Some(reason) = self.core.release_idle(place, port) {
            return Ok(Acted::Idle(reason));
        }
        self.core.release(place, port);
        self.core.close_out();
        Ok(Acted::Did)
    }
}
