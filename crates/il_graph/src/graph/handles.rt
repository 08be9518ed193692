//! Components are made and freed (OpenMAX IL 1.1.2, `OMX_GetHandle`, `OMX_FreeHandle`).

ghost use Rattle.std.specs.Prelude.{◌≡◌, ◌<◌, ◌≤◌, ◌++◌, ◌∷◌, [], Some, None, IfOk, IfErr, OnOk, OnErr, vec_len, vec_capacity};
ghost use Rattle.il_machine.specs.Components.{GetHandle, FreeHandle, no_progress};
ghost use Rattle.il_machine.specs.Whole.{Steps};
ghost use Rattle.graph_core.specs.Entries.{client_named, client_of, look_of};
ghost use Rattle.il_graph.specs.Shown.{kept, file_of, KeepsFiles, KeepsAllFiles};
ghost use Rattle.audio_parts.specs.AnyParts.{file_of as part_file};
ghost use Rattle.audio_parts.specs.Shown.{shown_by};
ghost use Rattle.il_machine.specs.Settings.{IsSized};
ghost use Rattle.il_graph.specs.Filed.{IsNew};
ghost use Rattle.graph_core.specs.Clients.{KeepsClients, KeepsAllClients};
ghost use Rattle.il_graph.specs.HandedIn.{KeepsHandedIn};
ghost use Rattle.il_graph.specs.Stood.{plainly, with_record, OnRefusal};

use crate::OutOfMemory;
use crate::freed::Freed;
use crate::graph::Graph;
use audio_parts::{AnyPart, law_of_shown, lawful_terms};
use il_flow::Seat;
use note_queues::Client;
use omx_types::{CallError, Handle, Kind, OmxError};
use outside_io::{Sink, Source};
use std::alloc::{AllocError, Global};

/// Ends a part that has no file.
fn end_part<S: Source, K: Sink>(part: AnyPart<S, K>)
    requires { part_file part ≡ None }
{
    match part.into_file() {
        None => {}
        Some(_) => unreachable!(),
    }
}

/// A new part of the kind, at a seat.
fn new_part<S: Source, K: Sink>(
    alloc: Global,
    kind: Kind,
) -> Result<Seat<AnyPart<S, K>>, OutOfMemory>
    requires { IsSized kind }
    ensures { IfOk result (λ part. IsNew kind (shown_by S.told K.told K.name part)) }
{
    let part = AnyPart::new(alloc, kind)?;
    lawful_terms();
    law_of_shown(&part);
    match Seat::new(alloc, part) {
        Ok(seat) => Ok(seat),
        Err(part) => {
            end_part(part);
            Err(AllocError)
        }
    }
}

/// Ends a part that has no file, with its seat.
fn end_seat<S: Source, K: Sink>(seat: Seat<AnyPart<S, K>>)
    requires { part_file seat ≡ None }
{
    end_part(seat.into_part());
}

/// Puts a part behind all others, where there is room.
fn put_last<P>(parts: &mut Vec<Option<P>>, part: P)
    requires { vec_len parts.old < vec_capacity parts.old }
    ensures items { parts.new.items ≡ parts.old.items ++ Some part ∷ [] }
    ensures capacity { vec_capacity parts.old ≤ vec_capacity parts.new }
{
    match parts.push(Some(part)) {
        Ok(()) => {}
        Err(_) => unreachable!(),
    }
}

impl<S: Source, K: Sink, C: Client> Graph<S, K, C> {
    /// Makes a component of the name. All memory that it needs is taken here. The client object was told nothing yet.
    pub fn get_handle(
        &mut self,
        alloc: Global,
        name: &str,
        client: C,
    ) -> Result<Handle, (CallError, C)>
        requires { C.progress client ≡ no_progress }
        ensures step { Steps (kept C.progress self.old) (kept C.progress self.new) (λ w v. GetHandle w name.now (plainly result) v) }
        ensures client { IfOk result (λ h. client_of h self.new.core ≡ Some client) }
        ensures clients { IfOk result (λ h. KeepsClients h self.old.core self.new.core) }
        ensures file { IfOk result (λ h. file_of h.generation self.new ≡ None) }
        ensures files { IfOk result (λ h. KeepsFiles h.generation self.old self.new) }
        ensures held { KeepsHandedIn (look_of self.old.core) (look_of self.new.core) }
        ensures handed_back { IfErr result (λ e. e.1 ≡ client) }
        ensures refused { IfErr result (λ e. OnRefusal e.0 (self.new ≡ self.old)) }
        ensures unchanged { OnErr result (kept C.progress self.new ≡ kept C.progress self.old) }
        ensures clients_unchanged { OnErr result (KeepsAllClients self.old.core self.new.core) }
        ensures files_unchanged { OnErr result (KeepsAllFiles self.old self.new) }
    {
        self.core.law_of_worlds();
        let kind = match registry::find(name) {
            Ok(kind) => kind,
            Err(error) => return Err((CallError::Omx(error), client)),
        };
        if self.core.is_full() {
            return Err((CallError::Omx(OmxError::InsufficientResources), client));
        }
        let Ok(part) = new_part(alloc, kind) else {
            return Err((CallError::OutOfMemory, client));
        };
        let h = match self.core.add(alloc, kind, client) {
            Ok(h) => h,
            Err(client) => {
                end_seat(part);
                return Err((CallError::OutOfMemory, client));
            }
        };
        put_last(&mut self.parts, part);
        self.core.close_out();
        Ok(h)
    }

    /// Frees a component, and answers its client object, and its file with what that took or from where it is read on.
    pub fn free_handle(&mut self, h: Handle) -> Result<Freed<S, K, C>, OmxError>
        ensures step { Steps (kept C.progress self.old) (kept C.progress self.new) (λ w v. FreeHandle w h (with_record result) v) }
        ensures held { KeepsHandedIn (look_of self.old.core) (look_of self.new.core) }
        ensures client { IfOk result (λ freed. client_of h self.old.core ≡ Some freed.client) }
        ensures file { IfOk result (λ freed. freed.file ≡ file_of h.generation self.old) }
        ensures gone { OnOk result (client_named h self.new.core ≡ None) }
        ensures clients { KeepsClients h self.old.core self.new.core }
        ensures files { KeepsFiles h.generation self.old self.new }
        ensures unchanged { OnErr result (self.new ≡ self.old) }
    {
        self.core.law_of_worlds();
        let Some(place) = self.core.place_of(h) else {
            return Err(OmxError::InvalidComponent);
        };
        if let Some(error) = self.core.free_refusal(place) {
            return Err(error);
        }
        let client = self.core.free_handle(place);
        let Some(part) = self.parts.remove(place) else {
            unreachable!()
        };
        self.core.close_out();
        Ok(Freed {
            client,
            file: part.into_part().into_file(),
        })
    }
}
