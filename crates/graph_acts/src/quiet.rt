//! Acts that move neither a header nor a client object.
ghost use Rattle.std.specs.Prelude.{◌≡◌};
ghost use Rattle.graph_acts.specs.declared.act.Act.TheVariants as asks;
ghost use Rattle.graph_acts.specs.Moving.{Moved};
ghost use Rattle.graph_acts.specs.Plain.{sight_of};

use crate::act::Reply;
use crate::served::Served;
use il_graph::PartFile;
use note_queues::Client;
use omx_types::{Command, Handle, Param, ParamKey, PortId};
use outside_io::{Sink, Source};

impl<S: Source, K: Sink, C: Client> Served<S, K, C> {
    pub(crate) fn set_parameter(&mut self, h: Handle, key: ParamKey, value: Param) -> Reply<S, K, C>
        ensures { Moved (sight_of C.Client S.Source K.Sink) (asks.SetParameter h key value) result self.old.graph self.new.graph }
    {
        Reply::SetParameter(self.graph.set_parameter(h, key, value))
    }

    pub(crate) fn set_config(&mut self, h: Handle, key: ParamKey, value: Param) -> Reply<S, K, C>
        ensures { Moved (sight_of C.Client S.Source K.Sink) (asks.SetConfig h key value) result self.old.graph self.new.graph }
    {
        Reply::SetConfig(self.graph.set_config(h, key, value))
    }

    pub(crate) fn setup_tunnel(&mut self, output: PortId, input: PortId) -> Reply<S, K, C>
        ensures { Moved (sight_of C.Client S.Source K.Sink) (asks.SetupTunnel output input) result self.old.graph self.new.graph }
    {
        Reply::SetupTunnel(self.graph.setup_tunnel(output, input))
    }

    pub(crate) fn drop_tunnel(&mut self, output: PortId, input: PortId) -> Reply<S, K, C>
        ensures { Moved (sight_of C.Client S.Source K.Sink) (asks.DropTunnel output input) result self.old.graph self.new.graph }
    {
        Reply::DropTunnel(self.graph.drop_tunnel(output, input))
    }

    pub(crate) fn send_command(&mut self, h: Handle, command: Command) -> Reply<S, K, C>
        ensures { Moved (sight_of C.Client S.Source K.Sink) (asks.SendCommand h command) result self.old.graph self.new.graph }
    {
        Reply::SendCommand(self.graph.send_command(h, command))
    }

    pub(crate) fn run_command(&mut self, h: Handle) -> Reply<S, K, C>
        ensures { Moved (sight_of C.Client S.Source K.Sink) (asks.RunCommand h) result self.old.graph self.new.graph }
    {
        Reply::RunCommand(self.graph.run_command(h))
    }

    pub(crate) fn supply(&mut self, h: Handle, port: u32) -> Reply<S, K, C>
        ensures { Moved (sight_of C.Client S.Source K.Sink) (asks.Supply h port) result self.old.graph self.new.graph }
    {
        Reply::Supply(self.graph.supply(h, port))
    }

    pub(crate) fn release(&mut self, h: Handle, port: u32) -> Reply<S, K, C>
        ensures { Moved (sight_of C.Client S.Source K.Sink) (asks.Release h port) result self.old.graph self.new.graph }
    {
        Reply::Release(self.graph.release(h, port))
    }

    pub(crate) fn hand_over(&mut self, h: Handle, port: u32) -> Reply<S, K, C>
        ensures { Moved (sight_of C.Client S.Source K.Sink) (asks.HandOver h port) result self.old.graph self.new.graph }
    {
        Reply::HandOver(self.graph.hand_over(h, port))
    }

    pub(crate) fn hand_back(&mut self, h: Handle, port: u32) -> Reply<S, K, C>
        ensures { Moved (sight_of C.Client S.Source K.Sink) (asks.HandBack h port) result self.old.graph self.new.graph }
    {
        Reply::HandBack(self.graph.hand_back(h, port))
    }

    pub(crate) fn attach(&mut self, h: Handle, file: PartFile<S, K>) -> Reply<S, K, C>
        ensures { Moved (sight_of C.Client S.Source K.Sink) (asks.Attach h file) result self.old.graph self.new.graph }
    {
        Reply::Attach(self.graph.attach(h, file))
    }

    pub(crate) fn grant(&mut self) -> Reply<S, K, C>
        ensures { Moved (sight_of C.Client S.Source K.Sink) asks.Grant result self.old.graph self.new.graph }
    {
        Reply::Grant(self.graph.grant())
    }

    pub(crate) fn preempt(&mut self) -> Reply<S, K, C>
        ensures { Moved (sight_of C.Client S.Source K.Sink) asks.Preempt result self.old.graph self.new.graph }
    {
        Reply::Preempt(self.graph.preempt())
    }
}
