//! A component's record: its making, what is read of it, and how it gets its handle and its events.

ghost use Rattle.std.specs.Prelude.{◌≡◌, ◌<◌, ◌≤◌, ◌||◌, ◌↔◌, IsTrue, Some, None, IfOk, IfErr, replicate, take, All, is_none, is_some, true, false, IsSome, IfSome};
ghost use Rattle.il_machine.specs.Kinds.{ports_in};
ghost use Rattle.il_machine.specs.Settings.{IsSized, set_refusal, value_of, refused_or, weights_in};
ghost use Rattle.il_machine.specs.World.{fresh, fresh_port, port_of, ports_of, told};
ghost use Rattle.il_machine.specs.Room.{room, used};
ghost use Rattle.std.specs.List.{list_any};
ghost use Rattle.il_machine.specs.Ports.{IsCalm, is_joined};
ghost use Rattle.il_machine.specs.States.{is_invalid, is_loaded};
ghost use Rattle.il_machine.specs.Parameters.{is_settable, is_format_free, get_parameter_refusal, set_config_refusal, with_value};
ghost use Rattle.il_component.specs.Entries.{component_of, KeepsNotices};
ghost use Rattle.il_component.specs.Places.{reserve_of};
ghost use Rattle.il_component.specs.Busy.{IsNextBusy};

use crate::work_out::WorkOut;
use bit_set::BitSet;
use il_machine::{Cause, Mode, Pending, Port, PortKey, PortSetting, PortState};
use note_queues::Notes;
use omx_types::{Event, Handle, Kind, OmxError, Param, ParamKey, State};
use param_store::Params;
use part_api::Attached;
use std::alloc::{AllocError, Global};
use std::marker::Model;

/// One component's record, with its queues and its client object where that is in.
pub struct Component<C> {
    pub(crate) handle: Handle,
    pub(crate) params: Params,
    pub(crate) state: State,
    pub(crate) pending: Option<Pending>,
    pub(crate) loss_mark: bool,
    /// It has its units.
    pub(crate) holds: bool,
    /// Its waiting number.
    pub(crate) waiting: Option<u64>,
    /// Its work that is out.
    pub(crate) work: Option<WorkOut>,
    pub(crate) file: Option<Attached>,
    /// Which inputs have ended.
    pub(crate) ended_inputs: Vec<bool>,
    /// The part has ended.
    pub(crate) ended: bool,
    /// The part has failed.
    pub(crate) failed: bool,
    pub(crate) ports: Vec<PortState>,
    /// The ports at which something is pending.
    pub(crate) busy: BitSet,
    pub(crate) notes: Notes<C>,
}

impl<C> Model for Component<C> {
    ghost use Rattle.il_component.specs.Entries.{Entry, IsFit};
    ghost use Rattle.il_component.specs.Busy.{AreBusy};

    ghost Value = { Entry C };

    ghost view = { λ c. record {
      handle = c.handle;
      settings = c.params;
      state = c.state;
      pending = c.pending;
      loss_mark = c.loss_mark;
      holds = c.holds;
      waiting = c.waiting;
      work = c.work;
      file = c.file;
      part = record { ended_inputs = c.ended_inputs.items; ended = c.ended; failed = c.failed };
      ports = c.ports.items;
      queues = c.notes;
    } };

    ghost invariant = { λ c. IsFit (record {
      handle = c.handle;
      settings = c.params;
      state = c.state;
      pending = c.pending;
      loss_mark = c.loss_mark;
      holds = c.holds;
      waiting = c.waiting;
      work = c.work;
      file = c.file;
      part = record { ended_inputs = c.ended_inputs.items; ended = c.ended; failed = c.failed };
      ports = c.ports.items;
      queues = c.notes;
    }) × AreBusy c.ports.items c.busy };
}

/// The states of so many ports that were just made.
fn fresh_ports(alloc: Global, count: u32) -> Result<Vec<PortState>, AllocError>
    ensures { IfOk result (λ ports. ports.items ≡ replicate count fresh_port) }
{
    let fresh = PortState {
        enabled: true,
        mode: Mode::Steady,
        flushing: false,
        held: false,
        waiting_mark: None,
        link: None,
    };
    vec![in alloc; fresh; count as usize]
}

/// So many inputs that haven't ended.
fn fresh_inputs(alloc: Global, count: u32) -> Result<Vec<bool>, AllocError>
    ensures { IfOk result (λ inputs. inputs.items ≡ replicate count false) }
{
    vec![in alloc; false; count as usize]
}

fn has_link(ports: &[PortState]) -> bool
    ensures { result ≡ list_any (λ p. is_some p.link) ports.now }
{
    ports.iter().any(|port| port.link.is_some())
}

/// How many ports a component of the kind has.
fn kind_ports(kind: Kind) -> u32
    requires { IsSized kind }
    ensures count { result ≡ ports_in kind }
    ensures few { result ≤ 16 }
{
    param_store::ports(kind)
}

impl<C> Component<C> {
    /// A component that was just made. All memory that it will need is taken here.
    pub fn fresh(alloc: Global, handle: Handle, kind: Kind, client: C) -> Result<Component<C>, C>
        requires sized { IsSized kind }
        ensures component { IfOk result (λ c. component_of c ≡ fresh handle kind) }
        ensures client { IfOk result (λ c. c.queues.client ≡ Some client) }
        ensures handed_back { IfErr result (λ back. back ≡ client) }
    {
        let count = kind_ports(kind);
        let Ok(ports) = fresh_ports(alloc, count) else {
            return Err(client);
        };
        let Ok(ended_inputs) = fresh_inputs(alloc, param_store::inputs(kind)) else {
            return Err(client);
        };
        let notes = match Notes::new(alloc, count, client) {
            Ok(notes) => notes,
            Err((_, client)) => return Err(client),
        };
        Ok(Component {
            handle,
            params: Params::new(kind),
            state: State::Loaded,
            pending: None,
            loss_mark: false,
            holds: false,
            waiting: None,
            work: None,
            file: None,
            ended_inputs,
            ended: false,
            failed: false,
            ports,
            busy: BitSet::empty(),
            notes,
        })
    }

    /// The handle by which the graph names it.
    pub fn handle(&self) -> Handle
        ensures { result ≡ self.now.handle }
    {
        self.handle
    }

    /// Gives the component its handle, where that was to come.
    pub fn set_handle(&mut self, handle: Handle)
        ensures component { component_of self.new ≡ record (component_of self.old) { handle = handle } }
        ensures kept { KeepsNotices self.old self.new }
    {
        self.handle = handle;
    }

    /// The state that it has reached.
    pub fn state(&self) -> State
        ensures { result ≡ self.now.state }
    {
        self.state
    }

    /// The transition that isn't done yet.
    pub fn pending(&self) -> Option<Pending>
        ensures { result ≡ self.now.pending }
    {
        self.pending
    }

    /// The kind of its part, which never changes.
    pub fn kind(&self) -> Kind
        ensures kind { result ≡ self.now.settings.kind }
        ensures sized { IsSized result }
    {
        self.params.kind()
    }

    /// What is set of each port.
    pub fn settings(&self) -> &[PortSetting]
        ensures { result.now ≡ self.now.settings.ports }
    {
        self.params.settings()
    }

    /// The gain of a gain, in 4096ths.
    pub fn gain(&self) -> u32
        ensures gain { result ≡ self.now.settings.gain }
        ensures small { result ≤ 65535 }
    {
        self.params.gain()
    }

    /// The weights of a mixer's inputs, in 4096ths, come first.
    pub fn weights(&self) -> [u32; 8]
        ensures weights { take (weights_in self.now.settings.kind) result ≡ self.now.settings.weights }
        ensures small { All (λ weight. weight ≤ 65535) result }
    {
        self.params.weights()
    }

    /// How many ports it has.
    pub fn ports(&self) -> u32
        ensures count { result ≡ ports_in self.now.settings.kind }
        ensures few { result ≤ 9 }
    {
        self.params.ports()
    }

    /// The port of this index with its setting and its state, or None past the last one.
    pub fn port(&self, index: u32) -> Option<Port>
        ensures { result ≡ port_of (component_of self.now) index }
    {
        if index >= self.params.ports() {
            return None;
        }
        Some(Port {
            key: PortKey {
                component: self.handle.generation,
                port: index,
            },
            setting: self.params.setting(index),
            state: self.ports[index as usize],
        })
    }

    /// Whether it is Invalid, which it stays.
    pub fn is_invalid(&self) -> bool
        ensures { result ≡ is_invalid self.now.state }
    {
        matches!(self.state, State::Invalid)
    }

    /// The frames for which its file came.
    pub fn file(&self) -> Option<Attached>
        ensures { result ≡ self.now.file }
    {
        self.file
    }

    /// Whether a work of the component is out.
    pub fn is_work_out(&self) -> bool
        ensures { result ≡ is_some self.now.work }
    {
        self.work.is_some()
    }

    /// Loaded with nothing pending.
    pub fn is_settable(&self) -> bool
        ensures { result ≡ is_settable (component_of self.now) }
    {
        matches!(self.state, State::Loaded) && self.pending.is_none()
    }

    /// Whether a port of it is joined.
    pub fn is_joined(&self) -> bool
        ensures { result ≡ list_any is_joined (ports_of (component_of self.now)) }
    {
        has_link(&self.ports)
    }

    /// Whether its client object is out with a note.
    pub fn is_client_out(&self) -> bool
        ensures { result ≡ is_none self.now.queues.client }
    {
        self.notes.is_client_out()
    }

    /// Whether nothing is pending, neither a transition nor anything at a port.
    pub fn is_calm(&self) -> bool
        ensures { IsTrue result ↔ IsCalm (component_of self.now) }
    {
        self.pending.is_none() && self.busy.is_empty()
    }

    /// The least port from this one on at which something is pending.
    pub fn next_busy(&self, from: u32) -> Option<u32>
        ensures next { IsNextBusy self.now.ports from result }
        ensures within { IfSome result (λ index. index < ports_in self.now.settings.kind) }
    {
        let index = self.busy.next(from as usize)?;
        Some(index as u32)
    }

    /// The places for events that are neither taken nor reserved.
    pub fn room(&self) -> u32
        ensures room { result ≡ room (component_of self.now) }
        ensures within { used (component_of self.now) ≤ 256 }
    {
        self.notes.room()
    }

    /// Queues an event.
    pub fn queue_event(&mut self, event: Event)
        requires { 0 < room (component_of self.old) }
        ensures told { component_of self.new ≡ told event (component_of self.old) }
        ensures kept { KeepsNotices self.old self.new }
    {
        self.notes.push_event(event);
    }
}
