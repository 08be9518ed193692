//! The component's commands: why they wait or can't be run.

ghost use Rattle.std.specs.Prelude.{◌≡◌, ◌≤◌};
ghost use Rattle.il_machine.specs.Commands.{run_idle, run_reason, lacks_port, state_fault, begun, carried_out, run_front, is_at_once};
ghost use Rattle.il_machine.specs.Look.{Look};
ghost use Rattle.il_machine.specs.Room.{used};
ghost use Rattle.il_component.specs.Entries.{component_of, KeepsNotices};
ghost use Rattle.il_component.specs.Units.{Gives};

use crate::component::Component;
use crate::port_changes::{Busy, PortChange, first_busy};
use il_machine::{Cause, Mark, Pending, Why};
use omx_types::{Command, Event, OmxError, PortSel, State};

/// Whether the command is carried out at once, and not queued.
pub fn is_at_once(command: Command) -> bool
    ensures { result ≡ is_at_once command }
{
    match command {
        Command::StateSet(target) => matches!(target, State::Invalid),
        _ => false,
    }
}

impl<C> Component<C> {
    /// Whether a port that the command names isn't there.
    pub fn lacks_port(&self, command: Command) -> bool
        ensures { result ≡ lacks_port (component_of self.now) command }
    {
        let ports = self.params.ports();
        match command {
            Command::StateSet(_) => false,
            Command::Flush(sel) | Command::PortDisable(sel) | Command::PortEnable(sel) =>
                match sel {
                    PortSel::One(port) => port >= ports,
                    PortSel::All => false,
                },
            Command::MarkBuffer { port, .. } => port >= ports,
        }
    }

    /// Why the first command can't be carried out now, or that there is none.
    pub fn run_idle(&self) -> Option<Why>
        ensures { result ≡ run_idle (component_of self.now) (component_of self.now).commands }
    {
        let Some(command) = self.notes.front_command() else {
            return Some(Why::NoCommand);
        };
        self.run_reason(*command)
    }

    fn run_reason(&self, command: Command) -> Option<Why>
        ensures { result ≡ run_reason (component_of self.now) command }
    {
        match command {
            Command::StateSet(_) => self.pending.map(|pending| Why::Pending(pending.target)),
            Command::Flush(sel) => first_busy(&self.ports, sel, Busy::Flushing),
            Command::PortDisable(sel) | Command::PortEnable(sel) => first_busy(
                &self.ports,
                sel,
                Busy::Changing,
            ),
            Command::MarkBuffer { port, .. } => first_busy(
                &self.ports,
                PortSel::One(port),
                Busy::Waiting,
            ),
        }
    }

    /// Why a transition to the state can't begin, with so many free units, and so many waits numbered.
    fn state_fault(&self, free: u32, waits: u64, target: State) -> Option<OmxError>
        ensures { (l : Look) → Gives l free waits → result ≡ state_fault l (component_of self.now) target }
    {
        if self.state == target {
            Some(OmxError::SameState)
        } else if !state_rules::is_lawful(self.state, target) {
            Some(OmxError::IncorrectStateTransition)
        } else if matches!(self.state, State::Loaded) && !self.params.fits() {
            Some(OmxError::UnsupportedSetting)
        } else if matches!(self.state, State::Loaded)
            && matches!(target, State::Idle)
            && free < self.need()
        {
            Some(OmxError::InsufficientResources)
        } else if matches!(target, State::WaitForResources) && waits == u64::MAX {
            Some(OmxError::InsufficientResources)
        } else {
            None
        }
    }

    /// Begins the transition to the state, or tells why it can't begin.
    fn begin_or_tell(&mut self, free: u32, waits: u64, target: State)
        requires { (l : Look) → Gives l free waits → used (begun (state_fault l (component_of self.old) target) target (component_of self.old)) ≤ 256 }
        ensures component { (l : Look) → Gives l free waits → component_of self.new ≡ begun (state_fault l (component_of self.old) target) target (component_of self.old) }
        ensures kept { KeepsNotices self.old self.new }
    {
        match self.state_fault(free, waits, target) {
            Some(error) => self.queue_event(Event::Error(error)),
            None => self.begin(Pending {
                target,
                cause: Cause::Client,
            }),
        }
    }

    /// Carries out a command that is queued no longer.
    fn carry_out(&mut self, free: u32, waits: u64, command: Command)
        requires { (l : Look) → Gives l free waits → used (carried_out l command (component_of self.old)) ≤ 256 }
        ensures component { (l : Look) → Gives l free waits → component_of self.new ≡ carried_out l command (component_of self.old) }
        ensures kept { KeepsNotices self.old self.new }
    {
        match command {
            Command::StateSet(target) => self.begin_or_tell(free, waits, target),
            Command::Flush(sel) => self.change_ports(sel, PortChange::Flush),
            Command::PortDisable(sel) => self.change_ports(sel, PortChange::Disable),
            Command::PortEnable(sel) => self.change_ports(sel, PortChange::Enable),
            Command::MarkBuffer {
                port,
                target,
                value,
            } => {
                let mark = Mark { target, value };
                self.change_ports(PortSel::One(port), PortChange::Wait(mark));
            }
        }
    }

    /// Takes the first command out of the queue and carries it out, where there is one. So many units are free, and so many waits were
    /// numbered.
    pub fn run(&mut self, free: u32, waits: u64)
        requires { (l : Look) → Gives l free waits → used (run_front l (component_of self.old).commands (component_of self.old)) ≤ 256 }
        ensures component { (l : Look) → Gives l free waits → component_of self.new ≡ run_front l (component_of self.old).commands (component_of self.old) }
        ensures kept { KeepsNotices self.old self.new }
    {
        if let Some(command) = self.pop() {
            self.carry_out(free, waits, command);
        }
    }
}
