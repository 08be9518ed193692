//! Acts that make and free components.
ghost use Rattle.std.specs.Prelude.{◌≡◌};
ghost use Rattle.il_machine.specs.Components.{no_progress};
ghost use Rattle.graph_acts.specs.declared.act.Act.TheVariants as asks;
ghost use Rattle.graph_acts.specs.Moving.{Moved};
ghost use Rattle.graph_acts.specs.Plain.{sight_of};

use crate::act::Reply;
use crate::served::Served;
use note_queues::Client;
use omx_types::Handle;
use outside_io::{Sink, Source};

impl<S: Source, K: Sink, C: Client> Served<S, K, C> {
    pub(crate) fn get_handle(&mut self, name: String, client: C) -> Reply<S, K, C>
        requires { C.progress client ≡ no_progress }
        ensures { Moved (sight_of C.Client S.Source K.Sink) (asks.GetHandle name client) result self.old.graph self.new.graph }
    {
        self.graph.law_of_worlds();
        let reply = self.graph.get_handle(self.alloc, name.as_str(), client);
        Reply::GetHandle(reply)
    }

    pub(crate) fn free_handle(&mut self, h: Handle) -> Reply<S, K, C>
        ensures { Moved (sight_of C.Client S.Source K.Sink) (asks.FreeHandle h) result self.old.graph self.new.graph }
    {
        self.graph.law_of_worlds();
        Reply::FreeHandle(self.graph.free_handle(h))
    }
}
