//! Acts that only look.
ghost use Rattle.std.specs.Prelude.{◌≡◌};
ghost use Rattle.graph_acts.specs.declared.act.Act.TheVariants as asks;
ghost use Rattle.graph_acts.specs.Moving.{Moved};
ghost use Rattle.graph_acts.specs.Plain.{sight_of};

use crate::act::Reply;
use crate::served::Served;
use note_queues::Client;
use omx_types::{Handle, ParamKey};
use outside_io::{Sink, Source};

impl<S: Source, K: Sink, C: Client> Served<S, K, C> {
    pub(crate) fn get_state(&self, h: Handle) -> Reply<S, K, C>
        ensures { Moved (sight_of C.Client S.Source K.Sink) (asks.GetState h) result self.now.graph self.now.graph }
    {
        self.graph.law_of_worlds();
        Reply::GetState(self.graph.get_state(h))
    }

    pub(crate) fn port_view(&self, h: Handle, port: u32) -> Reply<S, K, C>
        ensures { Moved (sight_of C.Client S.Source K.Sink) (asks.PortView h port) result self.now.graph self.now.graph }
    {
        self.graph.law_of_worlds();
        Reply::PortView(self.graph.port_view(h, port))
    }

    pub(crate) fn progress(&self, h: Handle) -> Reply<S, K, C>
        ensures { Moved (sight_of C.Client S.Source K.Sink) (asks.Progress h) result self.now.graph self.now.graph }
    {
        self.graph.law_of_worlds();
        Reply::Progress(self.graph.progress(h))
    }

    pub(crate) fn get_parameter(&self, h: Handle, key: ParamKey) -> Reply<S, K, C>
        ensures { Moved (sight_of C.Client S.Source K.Sink) (asks.GetParameter h key) result self.now.graph self.now.graph }
    {
        self.graph.law_of_worlds();
        Reply::GetParameter(self.graph.get_parameter(h, key))
    }

    pub(crate) fn get_config(&self, h: Handle, key: ParamKey) -> Reply<S, K, C>
        ensures { Moved (sight_of C.Client S.Source K.Sink) (asks.GetConfig h key) result self.now.graph self.now.graph }
    {
        self.graph.law_of_worlds();
        Reply::GetConfig(self.graph.get_config(h, key))
    }
}
