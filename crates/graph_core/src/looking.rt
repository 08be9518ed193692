//! What is seen of a port.

ghost use Rattle.std.specs.Prelude.{◌≡◌, ◌<◌, length, is_some, option_map, MatchOption};
ghost use Rattle.il_machine.specs.World.{port_of};
ghost use Rattle.il_machine.specs.Components.{view_of};
ghost use Rattle.graph_core.specs.Entries.{look_of, component_at};

use crate::core_graph::Core;
use il_machine::PortView;
use note_queues::Client;

impl<C: Client> Core<C> {
    /// Whether the component at the place has the port.
    pub fn has_port(&self, place: usize, index: u32) -> bool
        requires { place < length self.now.entries }
        ensures { MatchOption (component_at place self.now) ⊥ (λ c. result ≡ is_some (port_of c index)) }
    {
        let component = &self.components[place];
        component.port(index).is_some()
    }

    /// What is seen of a port of the component at the place, if it has that port.
    pub fn port_view(&self, place: usize, index: u32) -> Option<PortView>
        requires { place < length self.now.entries }
        ensures { MatchOption (component_at place self.now) ⊥ (λ c. result ≡ option_map (view_of (look_of self.now).headers) (port_of c index)) }
    {
        let component = &self.components[place];
        let port = component.port(index)?;
        Some(PortView {
            input: port.setting.definition.input,
            enabled: port.state.enabled,
            mode: port.state.mode,
            flushing: port.state.flushing,
            made: self.stock.made(port.key),
            count: port.setting.definition.count,
        })
    }
}
