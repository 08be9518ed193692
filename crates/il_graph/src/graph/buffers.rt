//! Headers of client ports (OpenMAX IL 1.1.2, `OMX_AllocateBuffer`, `OMX_UseBuffer`, `OMX_FreeBuffer`, `OMX_EmptyThisBuffer`,
//! `OMX_FillThisBuffer`).

ghost use Rattle.std.specs.Prelude.{◌≡◌, OnOk, OnErr, IfOk, IfErr, false, option_map};
ghost use Rattle.il_machine.specs.Buffers.{AllocateBuffer, UseBuffer, FreeBuffer, EmptyThisBuffer, FillThisBuffer};
ghost use Rattle.il_machine.specs.Whole.{Steps};
ghost use Rattle.header_core.specs.declared.memory.Store.TheVariants.{Own};
ghost use Rattle.header_core.specs.BufferHeader.{is_clients};
ghost use Rattle.graph_core.specs.Entries.{look_of};
ghost use Rattle.il_graph.specs.Shown.{kept, KeepsAllFiles};
ghost use Rattle.graph_core.specs.Changes.{IsHandedIn};
ghost use Rattle.graph_core.specs.Clients.{KeepsAllClients};
ghost use Rattle.il_graph.specs.HandedIn.{StayHandedIn, KeepsOthersHandedIn, IsTakenIn, IsHandedOut};
ghost use Rattle.il_graph.specs.Stood.{plainly, heldly, memory_back, IsRefusal};

use crate::graph::Graph;
use header_core::{Header, Memory};
use note_queues::Client;
use omx_types::{CallError, Handle, OmxError};
use outside_io::{Sink, Source};

/// The client's own memory goes back to it.
fn given_back(memory: Option<Memory>) -> Option<Vec<u8>>
    ensures { option_map (λ bytes. bytes.items) result ≡ memory }
{
    match memory {
        Some(memory) => Some(memory.into_bytes()),
        None => None,
    }
}

impl<S: Source, K: Sink, C: Client> Graph<S, K, C> {
    /// A header with a block of the graph's for a client port.
    pub fn allocate_buffer(&mut self, h: Handle, port: u32) -> Result<Header, CallError>
        ensures step { Steps (kept C.progress self.old) (kept C.progress self.new) (λ w v. AllocateBuffer w h port (heldly result) v) }
        ensures held { StayHandedIn (look_of self.old.core) (look_of self.new.core) }
        ensures handed { IfOk result (λ header. IsHandedOut (look_of self.old.core) (look_of self.new.core) header) }
        ensures memory { IfOk result (λ header. is_clients header.store ≡ false) }
        ensures refusal { IfErr result IsRefusal }
        ensures unchanged { OnErr result (self.new ≡ self.old) }
        ensures clients { KeepsAllClients self.old.core self.new.core }
        ensures files { KeepsAllFiles self.old self.new }
    {
        self.core.law_of_worlds();
        let Some(place) = self.core.place_of(h) else {
            return Err(CallError::Omx(OmxError::InvalidComponent));
        };
        if let Some(error) = self.core.allocate_refusal(place, port) {
            return Err(CallError::Omx(error));
        }
        let header = self.core.make_header(place, port, None);
        self.core.close_out();
        Ok(header)
    }

    /// A header over the client's own memory, which has the port's size at least and 4,096 bytes at most.
    pub fn use_buffer(
        &mut self,
        h: Handle,
        port: u32,
        bytes: Vec<u8>,
    ) -> Result<Header, (OmxError, Vec<u8>)>
        ensures step { Steps (kept C.progress self.old) (kept C.progress self.new) (λ w v. UseBuffer w h port bytes.items (heldly (plainly result)) v) }
        ensures held { StayHandedIn (look_of self.old.core) (look_of self.new.core) }
        ensures handed { IfOk result (λ header. IsHandedOut (look_of self.old.core) (look_of self.new.core) header) }
        ensures memory { IfOk result (λ header. header.store ≡ Own bytes.items) }
        ensures handed_back { IfErr result (λ e. e.1 ≡ bytes) }
        ensures unchanged { OnErr result (self.new ≡ self.old) }
        ensures clients { KeepsAllClients self.old.core self.new.core }
        ensures files { KeepsAllFiles self.old self.new }
    {
        self.core.law_of_worlds();
        let Some(place) = self.core.place_of(h) else {
            return Err((OmxError::InvalidComponent, bytes));
        };
        if let Some(error) = self.core.use_refusal(place, port, bytes.len()) {
            return Err((error, bytes));
        }
        let header = self.core.make_header(place, port, Some(Memory::new(bytes)));
        self.core.close_out();
        Ok(header)
    }

    /// Unmakes a header of the port, and answers its memory if that is the client's own.
    pub fn free_buffer(
        &mut self,
        h: Handle,
        port: u32,
        header: Header,
    ) -> Result<Option<Vec<u8>>, (OmxError, Header)>
        requires handed { IsHandedIn header (look_of self.old.core) }
        ensures step { Steps (kept C.progress self.old) (kept C.progress self.new) (λ w v. FreeBuffer w h port header.held.number (memory_back (plainly result)) v) }
        ensures held { KeepsOthersHandedIn header (look_of self.old.core) (look_of self.new.core) }
        ensures taken { OnOk result (IsTakenIn header (look_of self.new.core)) }
        ensures memory { IfOk result (λ bytes. option_map (λ b. b.items) bytes ≡ header.held.memory) }
        ensures handed_back { IfErr result (λ e. e.1 ≡ header) }
        ensures unchanged { OnErr result (self.new ≡ self.old) }
        ensures clients { KeepsAllClients self.old.core self.new.core }
        ensures files { KeepsAllFiles self.old self.new }
    {
        self.core.law_of_worlds();
        let Some(place) = self.core.place_of(h) else {
            return Err((OmxError::InvalidComponent, header));
        };
        if let Some(error) = self.core.free_buffer_refusal(place, port, header.id()) {
            return Err((error, header));
        }
        let memory = self.core.free_buffer(place, port, header);
        self.core.close_out();
        Ok(given_back(memory))
    }

    /// The header goes to the back of the input port's todo. Its content is of whole frames of the port's format, else it is refused.
    pub fn empty_this_buffer(
        &mut self,
        h: Handle,
        port: u32,
        header: Header,
    ) -> Result<(), (OmxError, Header)>
        requires handed { IsHandedIn header (look_of self.old.core) }
        ensures step { Steps (kept C.progress self.old) (kept C.progress self.new) (λ w v. EmptyThisBuffer w h port header.held (plainly result) v) }
        ensures held { KeepsOthersHandedIn header (look_of self.old.core) (look_of self.new.core) }
        ensures taken { OnOk result (IsTakenIn header (look_of self.new.core)) }
        ensures handed_back { IfErr result (λ e. e.1 ≡ header) }
        ensures unchanged { OnErr result (self.new ≡ self.old) }
        ensures clients { KeepsAllClients self.old.core self.new.core }
        ensures files { KeepsAllFiles self.old self.new }
    {
        self.core.law_of_worlds();
        let Some(place) = self.core.place_of(h) else {
            return Err((OmxError::InvalidComponent, header));
        };
        if let Some(error) = self.core.empty_refusal(place, port, &header) {
            return Err((error, header));
        }
        self.core.take_in(place, port, header);
        self.core.close_out();
        Ok(())
    }

    /// The header is cleared, and goes to the back of the output port's todo. Its memory stays as it is.
    pub fn fill_this_buffer(
        &mut self,
        h: Handle,
        port: u32,
        mut header: Header,
    ) -> Result<(), (OmxError, Header)>
        requires handed { IsHandedIn header (look_of self.old.core) }
        ensures step { Steps (kept C.progress self.old) (kept C.progress self.new) (λ w v. FillThisBuffer w h port header.held (plainly result) v) }
        ensures held { KeepsOthersHandedIn header (look_of self.old.core) (look_of self.new.core) }
        ensures taken { OnOk result (IsTakenIn header (look_of self.new.core)) }
        ensures handed_back { IfErr result (λ e. e.1 ≡ header) }
        ensures unchanged { OnErr result (self.new ≡ self.old) }
        ensures clients { KeepsAllClients self.old.core self.new.core }
        ensures files { KeepsAllFiles self.old self.new }
    {
        self.core.law_of_worlds();
        let Some(place) = self.core.place_of(h) else {
            return Err((OmxError::InvalidComponent, header));
        };
        if let Some(error) = self.core.fill_refusal(place, port, &header) {
            return Err((error, header));
        }
        header.clear();
        self.core.take_in(place, port, header);
        self.core.close_out();
        Ok(())
    }
}
