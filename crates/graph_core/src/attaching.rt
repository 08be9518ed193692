//! A file comes to a component.

ghost use Rattle.std.specs.Prelude.{◌≡◌, ◌<◌, ℕ, List, Option, None, length, MatchOption, IsSomeAnd};
ghost use Rattle.il_machine.specs.Files.{attach_refusal, with_file};
ghost use Rattle.stock_laws.specs.Bare.{StepsBare};
ghost use Rattle.il_component.specs.Files.{offered};
ghost use Rattle.graph_core.specs.Entries.{kept, component_at};
ghost use Rattle.graph_core.specs.Clients.{KeepsAllClients};

use crate::core_graph::Core;
use note_queues::Client;
use omx_types::OmxError;
use part_api::Attached;

impl<C: Client> Core<C> {
    /// Why the file doesn't come to the component at the place. So many bytes are there from its place to its size.
    pub fn attach_refusal(&self, place: usize, file: Attached, there: u64) -> Option<OmxError>
        requires { place < length self.now.entries }
        ensures { (known : Option (List ℕ)) → MatchOption (component_at place self.now) ⊥ (λ c. result ≡ attach_refusal c (offered file there known)) }
    {
        let component = &self.components[place];
        component.attach_refusal(file, there)
    }

    /// The file is the component's at the place, whatever it tells.
    pub fn attach(&mut self, place: usize, file: Attached)
        requires { (there : ℕ) × IsSomeAnd (component_at place self.old) (λ c. attach_refusal c (offered file there None) ≡ None) }
        ensures change { (there : ℕ) (known : Option (List ℕ)) → MatchOption (component_at place self.old) ⊥ (λ c. StepsBare (kept C.progress self.old) (kept C.progress self.new) (λ w v. v ≡ with_file place c (offered file there known) w)) }
        ensures clients { KeepsAllClients self.old self.new }
    {
        let component = &mut self.components[place];
        component.attach(file);
    }
}
