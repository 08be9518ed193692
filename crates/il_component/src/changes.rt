//! How a component's record changes: its state, its ports, its queue of commands.

ghost use Rattle.std.specs.Prelude.{◌≡◌, ◌<◌, ◌≤◌, ◌+◌, ◌||◌, ℕ, length, None, Some, IsSome, MatchOption, slice_set, true, false, [], ◌∷◌, drop, slice_get};
ghost use Rattle.il_machine.specs.Kinds.{ports_in};
ghost use Rattle.il_machine.specs.States.{same_state};
ghost use Rattle.il_machine.specs.World.{told, port_of, with_port};
ghost use Rattle.il_machine.specs.Room.{cost_of, room, used, events_in};
ghost use Rattle.il_machine.specs.Commands.{invalidated, lacks_command_room, sent, with_selected};
ghost use Rattle.omx_types.specs.declared.state.State.TheVariants as states;
ghost use Rattle.omx_types.specs.declared.command.Event.TheVariants as events;
ghost use Rattle.il_machine.specs.Due.{arrived, lost, restarted, with_part, all_given_back};
ghost use Rattle.il_component.specs.Entries.{component_of, KeepsNotices};
ghost use Rattle.il_component.specs.Places.{reserve_of, completed_if, idle_reached};
ghost use Rattle.il_component.specs.PortChanges.{changed_by, flush_ended, mode_ended, mark_ended};
ghost use Rattle.note_queues.specs.Queues.{holding, costs, notes_of};

use crate::commands::is_at_once;
use crate::component::Component;
use crate::part_changes::{clear, is_source};
use crate::port_changes::{
    PortChange, all_port_reserves, busy_of, change_selected, keep_busy, let_all_go, put_at_rest,
};
use crate::work_out::{WorkOut, work_reserve};
use bit_set::BitSet;
use il_machine::{Cause, Mode, Pending, PortState};
use note_queues::Notes;
use omx_types::{Command, Completion, Event, OmxError, PortSel, State};

/// What is reserved beside the costs of commands.
fn reserve(
    pending: Option<Pending>,
    loss_mark: bool,
    ports: &[PortState],
    work: &Option<WorkOut>,
) -> u32
    requires { length ports.now ≤ 16 }
    ensures { result ≡ reserve_of pending loss_mark ports.now work.now }
{
    let others = all_port_reserves(ports) + work_reserve(work);
    let Some(pending) = pending else {
        return others;
    };
    let by_loss = matches!(pending.cause, Cause::Loss);
    let asked = u32::from(!by_loss);
    let loses = u32::from(matches!(pending.target, State::Idle) && (loss_mark || by_loss));
    asked + others + loses
}

/// Reserves what the component's record asks for.
pub(crate) fn hold<C>(
    notes: &mut Notes<C>,
    pending: Option<Pending>,
    loss_mark: bool,
    ports: &[PortState],
    work: &Option<WorkOut>,
)
    requires few { length ports.now ≤ 16 }
    requires fits { events_in (notes_of notes.old) + costs notes.old + reserve_of pending loss_mark ports.now work.now ≤ 256 }
    ensures { notes.new ≡ holding (reserve_of pending loss_mark ports.now work.now) notes.old }
{
    notes.hold_reserve(reserve(pending, loss_mark, ports, work));
}

impl<C> Component<C> {
    /// Another state, and another pending transition.
    pub(crate) fn settle(&mut self, state: State, pending: Option<Pending>, loss_mark: bool)
        requires { used (record (component_of self.old) { state = state; pending = pending; loss_mark = loss_mark }) ≤ 256 }
        ensures component { component_of self.new ≡ record (component_of self.old) { state = state; pending = pending; loss_mark = loss_mark } }
        ensures kept { KeepsNotices self.old self.new }
    {
        self.state = state;
        self.pending = pending;
        self.loss_mark = loss_mark;
        hold(&mut self.notes, pending, loss_mark, &self.ports, &self.work);
    }

    /// Another state of the port.
    fn set_port(&mut self, index: u32, port: PortState)
        requires there { index < ports_in self.old.settings.kind }
        requires fits { used (with_port index port (component_of self.old)) ≤ 256 }
        ensures component { component_of self.new ≡ with_port index port (component_of self.old) }
        ensures kept { KeepsNotices self.old self.new }
    {
        self.ports[index as usize] = port;
        keep_busy(&mut self.busy, index as usize, &port);
        hold(
            &mut self.notes,
            self.pending,
            self.loss_mark,
            &self.ports,
            &self.work,
        );
    }

    /// Changes the ports that a command names.
    pub(crate) fn change_ports(&mut self, sel: PortSel, change: PortChange)
        requires { used (with_selected sel (changed_by change) (component_of self.old)) ≤ 256 }
        ensures component { component_of self.new ≡ with_selected sel (changed_by change) (component_of self.old) }
        ensures kept { KeepsNotices self.old self.new }
    {
        change_selected(&mut self.ports, sel, change);
        self.busy = busy_of(&self.ports);
        hold(
            &mut self.notes,
            self.pending,
            self.loss_mark,
            &self.ports,
            &self.work,
        );
    }

    /// Drops all that is pending, gives the units back, and is Invalid.
    fn invalidate(&mut self)
        ensures component { component_of self.new ≡ invalidated (component_of self.old) }
        ensures kept { KeepsNotices self.old self.new }
    {
        // The proof learns from it that the events have their places.
        let _room = self.notes.room();
        self.state = State::Invalid;
        self.pending = None;
        self.loss_mark = false;
        self.holds = false;
        self.waiting = None;
        put_at_rest(&mut self.ports);
        self.busy = BitSet::empty();
        self.notes.drop_commands();
        hold(&mut self.notes, None, false, &self.ports, &self.work);
    }

    /// How many places the command reserves.
    fn cost(&self, command: Command) -> u32
        ensures { result ≡ cost_of (component_of self.now) command }
    {
        let sel = match command {
            Command::StateSet(_) | Command::MarkBuffer { .. } => return 1,
            Command::Flush(sel) | Command::PortDisable(sel) | Command::PortEnable(sel) => sel,
        };
        match sel {
            PortSel::One(_) => 1,
            PortSel::All => self.params.ports(),
        }
    }

    /// Whether there is no place for the command's event, or none for the command.
    pub fn lacks_command_room(&self, command: Command) -> bool
        ensures { result ≡ lacks_command_room (component_of self.now) command }
    {
        if is_at_once(command) {
            return self.notes.events() >= 256 - work_reserve(&self.work);
        }
        self.notes.queued() >= 32 || self.notes.room() < self.cost(command)
    }

    /// Takes a command into the queue, or carries StateSet(Invalid) out.
    pub fn send(&mut self, command: Command)
        requires { lacks_command_room (component_of self.old) command ≡ false }
        ensures component { component_of self.new ≡ sent command (component_of self.old) }
        ensures kept { KeepsNotices self.old self.new }
    {
        if is_at_once(command) {
            self.invalidate();
            self.queue_event(Event::Error(OmxError::InvalidState));
            return;
        }
        let cost = self.cost(command);
        match self.notes.push_command(command, cost) {
            Ok(()) => {}
            Err(_) => unreachable!(),
        }
    }

    /// Takes the first command out of the queue.
    pub fn pop(&mut self) -> Option<Command>
        ensures command { result ≡ slice_get (component_of self.old).commands 0 }
        ensures component { component_of self.new ≡ record (component_of self.old) { commands = drop 1 (component_of self.old).commands } }
        ensures kept { KeepsNotices self.old self.new }
    {
        self.notes.pop_command()
    }

    /// The transition is pending; one to Idle takes the units, unless the component has them.
    pub(crate) fn begin(&mut self, pending: Pending)
        requires { used (record (component_of self.old) { pending = Some pending }) ≤ 256 }
        ensures component { component_of self.new ≡ record (component_of self.old) { pending = Some pending; holds = (component_of self.old).holds || same_state pending.target states.Idle } }
        ensures kept { KeepsNotices self.old self.new }
    {
        let holds = self.holds || matches!(pending.target, State::Idle);
        self.set_units(holds, self.waiting);
        self.settle(self.state, Some(pending), self.loss_mark);
    }

    /// The target is reached, and told where the client is to know it.
    fn reach(&mut self, target: State, is_told: bool)
        requires { used (completed_if is_told target (record (component_of self.old) { state = target; pending = None })) ≤ 256 }
        ensures component { component_of self.new ≡ completed_if is_told target (record (component_of self.old) { state = target; pending = None }) }
        ensures kept { KeepsNotices self.old self.new }
    {
        self.settle(target, None, self.loss_mark);
        if is_told {
            self.queue_event(Event::CmdComplete(Completion::State(target)));
        }
    }

    /// Idle is reached, and the resources are lost: Loaded is pending by loss.
    fn lose(&mut self, is_told: bool)
        requires { used (lost (completed_if is_told states.Idle (record (component_of self.old) { state = states.Idle; pending = None }))) ≤ 256 }
        ensures component { component_of self.new ≡ lost (completed_if is_told states.Idle (record (component_of self.old) { state = states.Idle; pending = None })) }
        ensures kept { KeepsNotices self.old self.new }
    {
        let loaded = Pending {
            target: State::Loaded,
            cause: Cause::Loss,
        };
        self.settle(State::Idle, Some(loaded), false);
        if is_told {
            self.queue_event(Event::CmdComplete(Completion::State(State::Idle)));
        }
        self.queue_event(Event::Error(OmxError::ResourcesLost));
    }

    /// No input has ended; nor has the part, unless it is a source's or has failed.
    fn restart(&mut self)
        ensures component { component_of self.new ≡ with_part (restarted (component_of self.old)) (component_of self.old) }
        ensures kept { KeepsNotices self.old self.new }
    {
        let stays = is_source(self.params.kind()) || self.failed;
        self.ended = self.ended && stays;
        clear(&mut self.ended_inputs);
    }

    /// The units are given back, the component waits no more, and no port of it is held.
    fn give_back(&mut self)
        ensures component { component_of self.new ≡ all_given_back (component_of self.old) }
        ensures kept { KeepsNotices self.old self.new }
    {
        self.holds = false;
        self.waiting = None;
        let_all_go(&mut self.ports);
    }

    /// The component waits for resources, with the number.
    fn wait(&mut self, number: u64)
        ensures component { component_of self.new ≡ record (component_of self.old) { waiting = Some number } }
        ensures kept { KeepsNotices self.old self.new }
    {
        self.waiting = Some(number);
    }

    /// Whether it has its units, and its waiting number.
    pub(crate) fn set_units(&mut self, holds: bool, waiting: Option<u64>)
        ensures component { component_of self.new ≡ record (component_of self.old) { holds = holds; waiting = waiting } }
        ensures kept { KeepsNotices self.old self.new }
    {
        self.holds = holds;
        self.waiting = waiting;
    }

    /// Idle is reached from below, or by a component that worked: what has ended begins anew, and what was lost is told.
    fn reach_idle(&mut self, by_client: bool)
        requires { used (idle_reached by_client (component_of self.old)) ≤ 256 }
        ensures component { component_of self.new ≡ idle_reached by_client (component_of self.old) }
        ensures kept { KeepsNotices self.old self.new }
    {
        if state_rules::is_down(self.state) {
            self.reach(State::Idle, true);
            return;
        }
        self.restart();
        if self.loss_mark || !by_client {
            self.lose(by_client);
        } else {
            self.reach(State::Idle, true);
        }
    }

    /// The pending transition is reached. A component that then waits for resources gets the number.
    pub fn arrive(&mut self, number: u64)
        requires pending { IsSome self.old.pending }
        requires fits { MatchOption self.old.pending ⊥ (λ p. used (arrived number p (component_of self.old)) ≤ 256) }
        ensures component { MatchOption self.old.pending ⊥ (λ p. component_of self.new ≡ arrived number p (component_of self.old)) }
        ensures kept { KeepsNotices self.old self.new }
    {
        let Some(pending) = self.pending else {
            unreachable!()
        };
        let by_client = matches!(pending.cause, Cause::Client);
        match pending.target {
            State::Idle => self.reach_idle(by_client),
            State::Loaded => {
                self.give_back();
                self.reach(State::Loaded, by_client);
            }
            State::WaitForResources => {
                self.wait(number);
                self.reach(State::WaitForResources, true);
            }
            target => self.reach(target, true),
        }
    }

    /// Another state of the port, and the event that tells it.
    fn end(&mut self, index: u32, port: PortState, completion: Completion)
        requires there { index < ports_in self.old.settings.kind }
        requires fits { used (told (events.CmdComplete completion) (with_port index port (component_of self.old))) ≤ 256 }
        ensures component { component_of self.new ≡ told (events.CmdComplete completion) (with_port index port (component_of self.old)) }
        ensures kept { KeepsNotices self.old self.new }
    {
        self.set_port(index, port);
        self.queue_event(Event::CmdComplete(completion));
    }

    /// The port's flush has ended.
    pub fn end_flush(&mut self, index: u32)
        requires there { index < ports_in self.old.settings.kind }
        requires fits { MatchOption (port_of (component_of self.old) index) ⊥ (λ p. used (flush_ended p (component_of self.old)) ≤ 256) }
        ensures component { MatchOption (port_of (component_of self.old) index) ⊥ (λ p. component_of self.new ≡ flush_ended p (component_of self.old)) }
        ensures kept { KeepsNotices self.old self.new }
    {
        let mut port = self.ports[index as usize];
        port.flushing = false;
        self.end(index, port, Completion::Flush(index));
    }

    /// The port's disable or enable has ended. A steady port stays as it is.
    pub fn end_mode(&mut self, index: u32)
        requires there { index < ports_in self.old.settings.kind }
        requires fits { MatchOption (port_of (component_of self.old) index) ⊥ (λ p. used (mode_ended p (component_of self.old)) ≤ 256) }
        ensures component { MatchOption (port_of (component_of self.old) index) ⊥ (λ p. component_of self.new ≡ mode_ended p (component_of self.old)) }
        ensures kept { KeepsNotices self.old self.new }
    {
        let mut port = self.ports[index as usize];
        let completion = match port.mode {
            Mode::Steady => return,
            Mode::Enabling => Completion::Enable(index),
            Mode::Disabling => Completion::Disable(index),
        };
        port.mode = Mode::Steady;
        self.end(index, port, completion);
    }

    /// The port's mark is put on a header.
    pub fn end_mark(&mut self, index: u32)
        requires there { index < ports_in self.old.settings.kind }
        requires fits { MatchOption (port_of (component_of self.old) index) ⊥ (λ p. used (mark_ended p (component_of self.old)) ≤ 256) }
        ensures component { MatchOption (port_of (component_of self.old) index) ⊥ (λ p. component_of self.new ≡ mark_ended p (component_of self.old)) }
        ensures kept { KeepsNotices self.old self.new }
    {
        let mut port = self.ports[index as usize];
        port.waiting_mark = None;
        self.end(index, port, Completion::Mark(index));
    }
}
