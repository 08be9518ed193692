//! Notes go to the client, and its object comes back.

ghost use Rattle.std.specs.Prelude.{◌≡◌, Some, IfOk, OnErr};
ghost use Rattle.il_machine.specs.Notes.{TakeNote, EndNote};
ghost use Rattle.il_machine.specs.Whole.{Steps, StepsWhere};
ghost use Rattle.graph_core.specs.Entries.{client_of, look_of};
ghost use Rattle.il_graph.specs.Shown.{kept, KeepsAllFiles};
ghost use Rattle.graph_core.specs.Changes.{OnNoNote};
ghost use Rattle.graph_core.specs.Clients.{KeepsClients, TakesClient, IsOut, IsPortDone, WasTold};
ghost use Rattle.il_graph.specs.Stood.{tookly, IsTookDone};
ghost use Rattle.il_graph.specs.HandedIn.{StayHandedIn, KeepsHandedIn, IsTookHandedOut};

use crate::graph::Graph;
use note_queues::{Client, Took};
use omx_types::{Handle, OmxError};
use outside_io::{Sink, Source};

impl<S: Source, K: Sink, C: Client> Graph<S, K, C> {
    /// Takes the component's oldest note, with its client object. A header in it is the client's from then on. None where no note is
    /// queued, Busy where the client object is out; then nothing changed.
    pub fn take_note(&mut self, h: Handle) -> Result<Took<C>, OmxError>
        ensures step { Steps (kept C.progress self.old) (kept C.progress self.new) (λ w v. TakeNote w h (tookly result) v) }
        ensures client { IfOk result (λ took. TakesClient h self.old.core took self.new.core) }
        ensures done { IfOk result (λ took. IsTookDone C.progress took) }
        ensures clients { KeepsClients h self.old.core self.new.core }
        ensures files { KeepsAllFiles self.old self.new }
        ensures held { StayHandedIn (look_of self.old.core) (look_of self.new.core) }
        ensures handed { IfOk result (λ took. IsTookHandedOut (look_of self.old.core) (look_of self.new.core) took) }
        ensures unchanged { OnErr result (self.new ≡ self.old) }
        ensures idle { IfOk result (λ took. OnNoNote took (self.new ≡ self.old)) }
    {
        self.core.law_of_worlds();
        let Some(place) = self.core.place_of(h) else {
            return Err(OmxError::InvalidComponent);
        };
        match self.core.take_note(place) {
            Took::Call(call) => {
                self.core.close_out();
                Ok(Took::Call(call))
            }
            Took::None => Ok(Took::None),
            Took::Busy => Ok(Took::Busy),
        }
    }

    /// The component's client object, which was out, is in again. What the call did is said of the worlds in which the object's
    /// progress is that of all events that were taken for the component: so who takes a note tells it the event.
    pub fn end_note(&mut self, h: Handle, client: C)
        requires out { IsOut h (look_of self.old.core) }
        requires told { IsPortDone (C.progress client).port }
        ensures step { StepsWhere (kept C.progress self.old) (kept C.progress self.new) (WasTold h (C.progress client)) (λ w v. EndNote w h v) }
        ensures client { client_of h self.new.core ≡ Some client }
        ensures clients { KeepsClients h self.old.core self.new.core }
        ensures files { KeepsAllFiles self.old self.new }
        ensures held { KeepsHandedIn (look_of self.old.core) (look_of self.new.core) }
    {
        let Some(place) = self.core.place_of(h) else {
            unreachable!()
        };
        self.core.put_client(place, client);
        self.core.law_of_worlds();
        self.core.close_out();
    }
}
