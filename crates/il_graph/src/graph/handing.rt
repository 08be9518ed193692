//! Headers are handed over through tunnels, and back to the end that supplies them or to the client.

ghost use Rattle.std.specs.Prelude.{◌≡◌, OnErr};
ghost use Rattle.il_machine.specs.Flow.{HandBack, HandOver};
ghost use Rattle.il_machine.specs.Whole.{Steps};
ghost use Rattle.graph_core.specs.Entries.{look_of};
ghost use Rattle.il_graph.specs.Shown.{kept, KeepsAllFiles};
ghost use Rattle.graph_core.specs.Clients.{KeepsAllClients};
ghost use Rattle.il_graph.specs.HandedIn.{KeepsHandedIn};
ghost use Rattle.il_graph.specs.Stood.{OnIdle};

use crate::graph::Graph;
use il_machine::Acted;
use note_queues::Client;
use omx_types::{Handle, OmxError};
use outside_io::{Sink, Source};

impl<S: Source, K: Sink, C: Client> Graph<S, K, C> {
    /// The end that supplies a tunnel hands its next header to the other end: an output one that it filled, an input one to be filled.
    pub fn hand_over(&mut self, h: Handle, port: u32) -> Result<Acted, OmxError>
        ensures step { Steps (kept C.progress self.old) (kept C.progress self.new) (λ w v. HandOver w h port result v) }
        ensures held { KeepsHandedIn (look_of self.old.core) (look_of self.new.core) }
        ensures clients { KeepsAllClients self.old.core self.new.core }
        ensures files { KeepsAllFiles self.old self.new }
        ensures unchanged { OnErr result (self.new ≡ self.old) }
        ensures idle { OnIdle result (self.new ≡ self.old) }
    {
        self.core.law_of_worlds();
        let Some(place) = self.core.place_of(h) else {
            return Err(OmxError::InvalidComponent);
        };
        if !self.core.has_port(place, port) {
            return Err(OmxError::BadPortIndex);
        }
        if let Some(reason) = self.core.over_idle(place, port) {
            return Ok(Acted::Idle(reason));
        }
        self.core.hand_over(place, port);
        self.core.close_out();
        Ok(Acted::Did)
    }

    /// A header goes back to the end that supplies the tunnel, or from a client port to the client in a note. An unused one goes back
    /// cleared, and only from a port that returns its headers.
    pub fn hand_back(&mut self, h: Handle, port: u32) -> Result<Acted, OmxError>
        ensures step { Steps (kept C.progress self.old) (kept C.progress self.new) (λ w v. HandBack w h port result v) }
        ensures held { KeepsHandedIn (look_of self.old.core) (look_of self.new.core) }
        ensures clients { KeepsAllClients self.old.core self.new.core }
        ensures files { KeepsAllFiles self.old self.new }
        ensures unchanged { OnErr result (self.new ≡ self.old) }
        ensures idle { OnIdle result (self.new ≡ self.old) }
    {
        self.core.law_of_worlds();
        let Some(place) = self.core.place_of(h) else {
            return Err(OmxError::InvalidComponent);
        };
        if !self.core.has_port(place, port) {
            return Err(OmxError::BadPortIndex);
        }
        if let Some(reason) = self.core.back_idle(place, port) {
            return Ok(Acted::Idle(reason));
        }
        self.core.hand_back(place, port);
        self.core.close_out();
        Ok(Acted::Did)
    }
}
