//! Acts that take a note and end it.
ghost use Rattle.std.specs.Prelude.{◌≡◌};
ghost use Rattle.graph_acts.specs.declared.act.Act.TheVariants as asks;
ghost use Rattle.graph_core.specs.Clients.{IsPortDone};
ghost use Rattle.graph_acts.specs.Holding.{IsGone};
ghost use Rattle.graph_acts.specs.Moving.{Moved};
ghost use Rattle.graph_acts.specs.Plain.{sight_of};

use crate::act::Reply;
use crate::served::Served;
use note_queues::Client;
use omx_types::Handle;
use outside_io::{Sink, Source};

impl<S: Source, K: Sink, C: Client> Served<S, K, C> {
    pub(crate) fn take_note(&mut self, h: Handle) -> Reply<S, K, C>
        ensures { Moved (sight_of C.Client S.Source K.Sink) (asks.TakeNote h) result self.old.graph self.new.graph }
    {
        self.graph.law_of_worlds();
        let took = self.graph.take_note(h);
        self.graph.law_of_worlds();
        Reply::TakeNote(took)
    }

    pub(crate) fn end_note(&mut self, h: Handle, client: C) -> Reply<S, K, C>
        requires { IsGone self.old.graph h × IsPortDone (C.progress client).port }
        ensures { Moved (sight_of C.Client S.Source K.Sink) (asks.EndNote h client) result self.old.graph self.new.graph }
    {
        self.graph.law_of_worlds();
        self.graph.end_note(h, client);
        Reply::EndNote
    }
}
