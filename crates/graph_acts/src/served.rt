//! The graph that is served in turns.
ghost use Rattle.graph_acts.specs.Holding.{Can};
ghost use Rattle.graph_acts.specs.Moving.{Moved};
ghost use Rattle.graph_acts.specs.Plain.{sight_of};

use crate::act::{Act, Reply};
use il_graph::Graph;
use note_queues::Client;
use outside_io::{Sink, Source};
use std::alloc::Global;

/// A graph, with what its calls take memory from.
pub struct Served<S: Source, K: Sink, C: Client> {
    pub graph: Graph<S, K, C>,
    pub alloc: Global,
}

impl<S: Source, K: Sink, C: Client> Served<S, K, C> {
    /// Makes the graph's call for the act.
    pub fn answer(&mut self, act: Act<S, K, C>) -> Reply<S, K, C>
        requires lawful { Can (sight_of C.Client S.Source K.Sink) self.old.graph act }
        ensures { Moved (sight_of C.Client S.Source K.Sink) act result self.old.graph self.new.graph }
    {
        match act {
            Act::GetHandle(name, client) => self.get_handle(name, client),
            Act::FreeHandle(h) => self.free_handle(h),
            Act::Attach(h, file) => self.attach(h, file),
            Act::GetState(h) => self.get_state(h),
            Act::PortView(h, port) => self.port_view(h, port),
            Act::Progress(h) => self.progress(h),
            Act::GetParameter(h, key) => self.get_parameter(h, key),
            Act::GetConfig(h, key) => self.get_config(h, key),
            Act::SetParameter(h, key, value) => self.set_parameter(h, key, value),
            Act::SetConfig(h, key, value) => self.set_config(h, key, value),
            Act::SetupTunnel(output, input) => self.setup_tunnel(output, input),
            Act::DropTunnel(output, input) => self.drop_tunnel(output, input),
            Act::SendCommand(h, command) => self.send_command(h, command),
            Act::RunCommand(h) => self.run_command(h),
            Act::AllocateBuffer(h, port) => self.allocate_buffer(h, port),
            Act::UseBuffer(h, port, bytes) => self.use_buffer(h, port, bytes),
            Act::FreeBuffer(h, port, header) => self.free_buffer(h, port, header),
            Act::EmptyThisBuffer(h, port, header) => self.empty_this_buffer(h, port, header),
            Act::FillThisBuffer(h, port, header) => self.fill_this_buffer(h, port, header),
            Act::TakeNote(h) => self.take_note(h),
            Act::EndNote(h, client) => self.end_note(h, client),
            Act::Supply(h, port) => self.supply(h, port),
            Act::Release(h, port) => self.release(h, port),
            Act::HandOver(h, port) => self.hand_over(h, port),
            Act::HandBack(h, port) => self.hand_back(h, port),
            Act::Claim(h) => self.claim(h),
            Act::Finish(done) => self.finish(done),
            Act::Grant => self.grant(),
            Act::Preempt => self.preempt(),
        }
    }
}
