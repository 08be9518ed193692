//! Commands of a component are queued and carried out.

ghost use Rattle.std.specs.Prelude.{◌≡◌, ◌<◌, None, length, MatchOption, IsSomeAnd};
ghost use Rattle.il_machine.specs.World.{with_component};
ghost use Rattle.il_machine.specs.Look.{look};
ghost use Rattle.il_machine.specs.Commands.{send_refusal, lacks_target, sent, run_idle, run_front};
ghost use Rattle.il_machine.specs.Due.{first_due};
ghost use Rattle.stock_laws.specs.Bare.{StepsBare};
ghost use Rattle.graph_core.specs.Entries.{kept, look_of, component_at};
ghost use Rattle.graph_core.specs.Clients.{KeepsAllClients};

use crate::core_graph::Core;
use crate::units::enter;
use il_machine::Why;
use note_queues::Client;
use omx_types::{Command, OmxError};

impl<C: Client> Core<C> {
    /// Why the component at the place can't be sent the command, if it can't.
    pub fn send_refusal(&self, place: usize, command: Command) -> Option<OmxError>
        requires { place < length self.now.entries }
        ensures { MatchOption (component_at place self.now) ⊥ (λ c. result ≡ send_refusal (look_of self.now) c command) }
    {
        let component = &self.components[place];
        if component.is_invalid() {
            Some(OmxError::InvalidState)
        } else if component.lacks_port(command) {
            Some(OmxError::BadPortIndex)
        } else if self.lacks_target(command) {
            Some(OmxError::BadParameter)
        } else if component.lacks_command_room(command) {
            Some(OmxError::InsufficientResources)
        } else {
            None
        }
    }

    /// Whether the target of a mark names no component.
    fn lacks_target(&self, command: Command) -> bool
        ensures { result ≡ lacks_target (look_of self.now) command }
    {
        match command {
            Command::MarkBuffer { target, .. } => self.place_of(target).is_none(),
            _ => false,
        }
    }

    /// The component at the place takes the command.
    pub fn send_command(&mut self, place: usize, command: Command)
        requires { IsSomeAnd (component_at place self.old) (λ c. send_refusal (look_of self.old) c command ≡ None) }
        ensures change { MatchOption (component_at place self.old) ⊥ (λ c. StepsBare (kept C.progress self.old) (kept C.progress self.new) (λ w v. v ≡ with_component place (sent command c) w)) }
        ensures clients { KeepsAllClients self.old self.new }
    {
        let component = &mut self.components[place];
        component.send(command);
        enter(&mut self.book, component);
    }

    /// Why the component at the place carries out no command, if it doesn't.
    pub fn run_idle(&self, place: usize) -> Option<Why>
        requires { place < length self.now.entries }
        ensures { MatchOption (component_at place self.now) ⊥ (λ c. result ≡ run_idle c c.commands) }
    {
        let component = &self.components[place];
        component.run_idle()
    }

    /// The component at the place carries out its first command. Nothing is due before: then none waits for its number.
    pub fn run_command(&mut self, place: usize)
        requires closed { first_due (look_of self.old) ≡ None }
        requires may { IsSomeAnd (component_at place self.old) (λ c. run_idle c c.commands ≡ None) }
        ensures change { MatchOption (component_at place self.old) ⊥ (λ c. StepsBare (kept C.progress self.old) (kept C.progress self.new) (λ w v. v ≡ with_component place (run_front (look w) c.commands c) w)) }
        ensures clients { KeepsAllClients self.old self.new }
    {
        let free = self.book.free();
        let component = &mut self.components[place];
        component.run(free, self.book.numbered());
        enter(&mut self.book, component);
        self.marked.insert(place);
    }
}
