//! A component's work: what keeps it from going out, how it goes out, and what its coming back makes of the component.

ghost use Rattle.std.specs.Prelude.{◌≡◌, ◌≤◌, ◌<◌, ◌||◌, true, None, Some, IsSome, MatchOption, length, slice_set};
ghost use Rattle.il_machine.specs.World.{port_of, with_port};
ghost use Rattle.il_machine.specs.Due.{with_part};
ghost use Rattle.il_machine.specs.Room.{room, used, work_reserve};
ghost use Rattle.il_machine.specs.Claims.{has_ended, is_unannounced, must_announce};
ghost use Rattle.il_machine.specs.Finishing.{announced};
ghost use Rattle.il_machine.specs.Kinds.{ports_in};
ghost use Rattle.il_component.specs.Entries.{component_of, KeepsNotices};
ghost use Rattle.il_component.specs.Works.{work_with};

use crate::changes::hold;
use crate::component::Component;
use crate::work_out::WorkOut;
use il_machine::Port;
use omx_types::{Event, Kind};

impl<C> Component<C> {
    /// Whether the input has ended. An output hasn't.
    pub fn has_ended(&self, port: u32) -> bool
        ensures { result ≡ has_ended (component_of self.now) port }
    {
        match self.ended_inputs.get(port as usize) {
            Some(ended) => *ended,
            None => false,
        }
    }

    /// Whether its part has ended or failed.
    pub fn is_over(&self) -> bool
        ensures { result ≡ (self.now.part.ended || self.now.part.failed) }
    {
        self.ended || self.failed
    }

    /// Whether a late source is to tell that the port has another format than its file.
    pub fn is_unannounced(&self, port: Port) -> bool
        ensures { result ≡ is_unannounced (component_of self.now) port }
    {
        matches!(self.params.kind(), Kind::Late) && !port.state.held && !self.has_file_format(port)
    }

    /// The work goes out, with the headers of these numbers by their ports.
    pub fn give_work(&mut self, numbers: [Option<u64>; 9], announces: bool)
        requires announces { announces ≡ must_announce (component_of self.old) }
        requires fits { used (record (component_of self.old) { work = Some (work_with numbers (component_of self.old)) }) ≤ 256 }
        ensures component { component_of self.new ≡ record (component_of self.old) { work = Some (work_with numbers (component_of self.old)) } }
        ensures kept { KeepsNotices self.old self.new }
    {
        let work = WorkOut::new(
            self.params.kind(),
            self.params.gain(),
            self.params.weights(),
            numbers,
            announces,
        );
        self.put_work(Some(work));
    }

    /// The work comes back. Its places for events are let go.
    pub fn take_work(&mut self)
        ensures component { component_of self.new ≡ record (component_of self.old) { work = None } }
        ensures room { work_reserve self.old.work ≤ room (component_of self.new) }
        ensures kept { KeepsNotices self.old self.new }
    {
        // The proof learns from it that all has its places.
        let _room = self.notes.room();
        self.put_work(None);
    }

    /// Whether the input has ended by now.
    pub fn set_ended(&mut self, input: u32, ended: bool)
        requires { input < length self.old.part.ended_inputs }
        ensures component { component_of self.new ≡ with_part (record self.old.part { ended_inputs = slice_set self.old.part.ended_inputs input ended }) (component_of self.old) }
        ensures kept { KeepsNotices self.old self.new }
    {
        self.ended_inputs[input as usize] = ended;
    }

    /// The part has ended, where it had or does now.
    pub fn end_part(&mut self, ended: bool)
        ensures component { component_of self.new ≡ with_part (record self.old.part { ended = self.old.part.ended || ended }) (component_of self.old) }
        ensures kept { KeepsNotices self.old self.new }
    {
        self.ended = self.ended || ended;
    }

    /// The part has failed.
    pub fn fail_part(&mut self)
        ensures component { component_of self.new ≡ with_part (record self.old.part { failed = true }) (component_of self.old) }
        ensures kept { KeepsNotices self.old self.new }
    {
        self.failed = true;
    }

    /// The port is held.
    fn hold_port(&mut self, index: u32)
        requires { index < ports_in self.old.settings.kind }
        ensures component { MatchOption (port_of (component_of self.old) index) ⊥ (λ p. component_of self.new ≡ with_port index (record p.state { held = true }) (component_of self.old)) }
        ensures kept { KeepsNotices self.old self.new }
    {
        self.ports[index as usize].held = true;
    }

    /// An announcement comes back: the output is held and its client told, unless it has its file's format by now.
    pub fn announce(&mut self)
        requires { IsSome self.old.work }
        ensures component { component_of self.new ≡ announced (component_of self.old) }
        ensures kept { KeepsNotices self.old self.new }
    {
        self.take_work();
        let Some(port) = self.port(0) else {
            return;
        };
        if self.has_file_format(port) {
            return;
        }
        self.hold_port(0);
        self.queue_event(Event::PortSettingsChanged(0));
    }

    fn put_work(&mut self, work: Option<WorkOut>)
        requires { used (record (component_of self.old) { work = work }) ≤ 256 }
        ensures component { component_of self.new ≡ record (component_of self.old) { work = work } }
        ensures kept { KeepsNotices self.old self.new }
    {
        self.work = work;
        hold(
            &mut self.notes,
            self.pending,
            self.loss_mark,
            &self.ports,
            &self.work,
        );
    }
}
