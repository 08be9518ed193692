//! A graph of components and their parts: how it begins and ends, and the looks at a component and its ports.

mod attaching;
mod buffers;
mod claiming;
mod commands;
mod finishing;
mod handing;
mod handles;
mod laws;
mod noting;
mod parameters;
mod preparing;
mod supplying;
mod tunnels;
mod units;

ghost use Rattle.std.specs.Prelude.{◌≡◌, ◌↔◌, ◌≤◌, true, All, None, IfOk, option_and_then};
ghost use Rattle.il_machine.specs.Components.{state_answer, view_answer, progress_answer, handle_at};
ghost use Rattle.il_machine.specs.Look.{look};
ghost use Rattle.il_machine.specs.Whole.{Always, no_kept};
ghost use Rattle.audio_parts.specs.AnyParts.{file_of as part_file};
ghost use Rattle.graph_core.specs.Ending.{IsAllIn};
ghost use Rattle.graph_core.specs.Entries.{look_of};
ghost use Rattle.il_graph.specs.Shown.{kept};

use audio_parts::AnyPart;
use graph_core::Core;
use il_flow::Seat;
use il_machine::{PortView, Progress};
use note_queues::Client;
use omx_types::{Handle, OmxError, State};
use outside_io::{Sink, Source};
use std::alloc::{AllocError, Global};
use std::marker::Model;

/// A graph of components, each with its part and a client object of the type `C`. Sources read files of the type `S`, sinks write such of
/// the type `K`. It is ended by `close`.
pub struct Graph<S: Source, K: Sink, C: Client> {
    pub(crate) core: Core<C>,
    /// The seat of each component's part, in the order of their numbers, where that isn't out.
    pub(crate) parts: Vec<Option<Seat<AnyPart<S, K>>>>,
}

impl<S: Source, K: Sink, C: Client> Model for Graph<S, K, C> {
    ghost use Rattle.std.specs.Prelude.{◌≤◌, map, option_map, vec_capacity};
    ghost use Rattle.audio_parts.specs.Shown.{shown_by};
    ghost use Rattle.il_graph.specs.Shown.{Shown, IsWhole};

    ghost Value = { Shown S K C };

    ghost view = { λ g. record { core = g.core; parts = map (option_map (shown_by S.told K.told K.name)) g.parts.items } };

    ghost invariant = { λ g. (32 ≤ vec_capacity g.parts) × IsWhole C.progress (record { core = g.core; parts = map (option_map (shown_by S.told K.told K.name)) g.parts.items }) };
}

/// Ends parts that have no file.
fn end_parts<S: Source, K: Sink>(mut parts: Vec<Option<Seat<AnyPart<S, K>>>>)
    requires { All (λ p. option_and_then (λ part. part_file part) p ≡ None) parts.items }
{
    while let Some(part) = parts.pop() {
        let Some(part) = part else {
            continue;
        };
        match part.into_part().into_file() {
            None => {}
            Some(_) => unreachable!(),
        }
    }
    parts.destroy_empty();
}

impl<S: Source, K: Sink, C: Client> Graph<S, K, C> {
    /// A graph with no component, and so many free units.
    pub fn new(alloc: Global, units: u32) -> Result<Graph<S, K, C>, AllocError>
        ensures { IfOk result (λ g. kept C.progress g ≡ no_kept (look_of g.core).key units) }
    {
        let parts = Vec::with_capacity(alloc, 32)?;
        match Core::new(alloc, units) {
            Ok(core) => {
                core.law_of_worlds();
                Ok(Graph { core, parts })
            }
            Err(error) => {
                parts.destroy_empty();
                Err(error)
            }
        }
    }

    /// A component's state (OpenMAX IL 1.1.2, `OMX_GetState`).
    pub fn get_state(&self, h: Handle) -> Result<State, OmxError>
        ensures { Always (kept C.progress self.now) (λ w. result ≡ state_answer h (look w)) }
    {
        let Some(component) = self.core.find(h) else {
            return Err(OmxError::InvalidComponent);
        };
        Ok(component.state())
    }

    /// What `get_state` answers. The component is looked for at the place first, in the order of their numbers from 0, so that its handle isn't
    /// resolved where it stands there.
    pub fn state_near(&self, h: Handle, place: usize) -> Result<State, OmxError>
        ensures { Always (kept C.progress self.now) (λ w. result ≡ state_answer h (look w)) }
    {
        let Some(component) = self.core.find_near(h, place) else {
            return Err(OmxError::InvalidComponent);
        };
        Ok(component.state())
    }

    /// What is seen of a port.
    pub fn port_view(&self, h: Handle, port: u32) -> Result<PortView, OmxError>
        ensures { Always (kept C.progress self.now) (λ w. result ≡ view_answer h port (look w)) }
    {
        let Some(place) = self.core.place_of(h) else {
            return Err(OmxError::InvalidComponent);
        };
        match self.core.port_view(place, port) {
            Some(view) => Ok(view),
            None => Err(OmxError::BadPortIndex),
        }
    }

    /// What a component's client object was told, or None where it is out.
    pub fn progress(&self, h: Handle) -> Result<Option<Progress>, OmxError>
        ensures { Always (kept C.progress self.now) (λ w. result ≡ progress_answer h w) }
    {
        let Some(component) = self.core.find(h) else {
            return Err(OmxError::InvalidComponent);
        };
        Ok(component.progress())
    }

    /// The handle of the component at the place, from 0, in the order of their numbers.
    pub fn handle_at(&self, place: u32) -> Option<Handle>
        ensures few { 32 ≤ place → result ≡ None }
        ensures handle { Always (kept C.progress self.now) (λ w. result ≡ handle_at place (look w)) }
    {
        self.core.law_of_worlds();
        let component = self.core.at(place as usize)?;
        Some(component.handle())
    }

    /// Whether the graph can be closed: the client has no header, no client object and no work is out, and no component has a file.
    pub fn is_all_in(&self) -> bool
        ensures { (result ≡ true) ↔ IsAllIn (look_of self.now.core) }
    {
        self.core.is_all_in()
    }
}

impl<S: Source, K: Sink, C: Client + Drop> Graph<S, K, C> {
    /// Ends all components and ports, the headers that are with them, and the client objects. The client has no header, no client object
    /// and no work is out, and no component has a file.
    pub fn close(self)
        requires { IsAllIn (look_of self.core) }
    {
        let Graph { core, parts } = self;
        core.close();
        end_parts(parts);
    }
}
