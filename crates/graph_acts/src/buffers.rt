//! Acts on headers of client ports.
ghost use Rattle.std.specs.Prelude.{◌≡◌};
ghost use Rattle.graph_core.specs.Entries.{look_of};
ghost use Rattle.graph_core.specs.Changes.{IsHandedIn};
ghost use Rattle.graph_acts.specs.declared.act.Act.TheVariants as asks;
ghost use Rattle.graph_acts.specs.Moving.{Moved};
ghost use Rattle.graph_acts.specs.Plain.{sight_of};

use crate::act::Reply;
use crate::served::Served;
use header_core::Header;
use note_queues::Client;
use omx_types::Handle;
use outside_io::{Sink, Source};

impl<S: Source, K: Sink, C: Client> Served<S, K, C> {
    pub(crate) fn allocate_buffer(&mut self, h: Handle, port: u32) -> Reply<S, K, C>
        ensures { Moved (sight_of C.Client S.Source K.Sink) (asks.AllocateBuffer h port) result self.old.graph self.new.graph }
    {
        Reply::AllocateBuffer(self.graph.allocate_buffer(h, port))
    }

    pub(crate) fn use_buffer(&mut self, h: Handle, port: u32, bytes: Vec<u8>) -> Reply<S, K, C>
        ensures { Moved (sight_of C.Client S.Source K.Sink) (asks.UseBuffer h port bytes) result self.old.graph self.new.graph }
    {
        Reply::UseBuffer(self.graph.use_buffer(h, port, bytes))
    }

    pub(crate) fn free_buffer(&mut self, h: Handle, port: u32, header: Header) -> Reply<S, K, C>
        requires { IsHandedIn header (look_of self.old.graph.core) }
        ensures { Moved (sight_of C.Client S.Source K.Sink) (asks.FreeBuffer h port header) result self.old.graph self.new.graph }
    {
        Reply::FreeBuffer(self.graph.free_buffer(h, port, header))
    }

    pub(crate) fn empty_this_buffer(
        &mut self,
        h: Handle,
        port: u32,
        header: Header,
    ) -> Reply<S, K, C>
        requires { IsHandedIn header (look_of self.old.graph.core) }
        ensures { Moved (sight_of C.Client S.Source K.Sink) (asks.EmptyThisBuffer h port header) result self.old.graph self.new.graph }
    {
        // The proof learns from it that the header has the room of its size.
        let _sized = header.size();
        Reply::EmptyThisBuffer(self.graph.empty_this_buffer(h, port, header))
    }

    pub(crate) fn fill_this_buffer(
        &mut self,
        h: Handle,
        port: u32,
        header: Header,
    ) -> Reply<S, K, C>
        requires { IsHandedIn header (look_of self.old.graph.core) }
        ensures { Moved (sight_of C.Client S.Source K.Sink) (asks.FillThisBuffer h port header) result self.old.graph self.new.graph }
    {
        // The proof learns from it that the header has the room of its size.
        let _sized = header.size();
        Reply::FillThisBuffer(self.graph.fill_this_buffer(h, port, header))
    }
}
