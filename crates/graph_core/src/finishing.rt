//! A component's work comes back.

ghost use Rattle.std.specs.Prelude.{◌≡◌, ◌≤◌, ◌+◌, ℕ, List, true, is_some, length, take, MatchOption, IsSomeAnd};
ghost use Rattle.omx_types.specs.Formats.{frame_bytes_of};
ghost use Rattle.il_machine.specs.Finishing.{finished};
ghost use Rattle.il_machine.specs.Kinds.{ports_in};
ghost use Rattle.il_machine.specs.Ports.{returning};
ghost use Rattle.il_machine.specs.Sound.{IsSound};
ghost use Rattle.il_machine.specs.Stepping.{WorkDone};
ghost use Rattle.il_machine.specs.World.{World, number_of, ports_of};
ghost use Rattle.stock_laws.specs.Bare.{StandsBare, StepsBare, StepsBareWhere};
ghost use Rattle.il_component.specs.Entries.{component_of};
ghost use Rattle.work_landing.specs.Landed.{AreWays, done_by};
ghost use Rattle.graph_core.specs.Claiming.{AreFree};
ghost use Rattle.graph_core.specs.Entries.{kept, look_of, component_at};
ghost use Rattle.graph_core.specs.Clients.{KeepsAllClients};
ghost use Rattle.graph_core.specs.Finishing.{AreHandedBack, ComesBack};

use crate::core_graph::Core;
use il_component::Component;
use il_machine::Port;
use note_queues::Client;
use port_rules::is_returning;
use work_landing::{Places, Step, Way, come_back};

/// How the port takes a header back.
fn way_of<C>(component: &Component<C>, port: Port) -> Way
    requires some { 1 ≤ frame_bytes_of port.setting.definition.format }
    requires few { frame_bytes_of port.setting.definition.format ≤ 4096 }
    ensures input { result.input ≡ port.setting.definition.input }
    ensures frame { result.frame ≡ frame_bytes_of port.setting.definition.format }
    ensures joined { result.joined ≡ is_some port.state.link }
    ensures returning { result.returning ≡ returning (component_of component.now) port }
{
    Way {
        input: port.setting.definition.input,
        frame: port.setting.definition.format.frame_bytes() as usize,
        joined: port.state.link.is_some(),
        returning: is_returning(component, port),
    }
}

/// How each port of the component takes headers back.
fn ways_of<C>(component: &Component<C>) -> [Way; 9]
    requires sound { IsSound (component_of component.now) }
    requires many { length (ports_of (component_of component.now)) ≡ ports_in component.now.settings.kind }
    ensures { AreWays (component_of component.now) 0 (take (ports_in component.now.settings.kind) result) }
{
    let mut ways = [Way {
        input: false,
        frame: 1,
        joined: false,
        returning: false,
    }; 9];
    for index in 0..component.ports() {
        let Some(port) = component.port(index) else {
            unreachable!()
        };
        ways[index as usize] = way_of(component, port);
    }
    ways
}

impl<C: Client> Core<C> {
    /// The work of the component at the place comes back from a step: its headers land, each leaving its place free, marks and what ended are
    /// told, and the part goes on.
    pub fn finish(&mut self, place: usize, headers: &mut Places, step: Step)
        requires comes { IsSomeAnd (component_at place self.old) (λ c. (w : World) × (took : List ℕ) × (StandsBare (kept C.progress self.old) w × ComesBack w c headers.old step took)) }
        requires handed { AreHandedBack headers.old (look_of self.old) }
        ensures change { (took : List ℕ) → MatchOption (component_at place self.old) ⊥ (λ c. StepsBareWhere (kept C.progress self.old) (kept C.progress self.new) (λ w. ComesBack w c headers.old step took) (λ w v. v ≡ finished place c (done_by (number_of c) headers.old step took) w)) }
        ensures free { AreFree headers.new }
        ensures clients { KeepsAllClients self.old self.new }
    {
        let component = &mut self.components[place];
        let ways = ways_of(component);
        let ports = component.ports() as usize;
        come_back(&mut self.stock, component, headers, &ways[..ports], step);
    }

    /// The announcement of the component at the place comes back: its output is held and its client told, unless the output has the
    /// format of the file by now.
    pub fn finish_announcement(&mut self, place: usize)
        requires { IsSomeAnd (component_at place self.old) (λ c. IsSomeAnd c.work (λ work. work.announces ≡ true)) }
        ensures change { (done : WorkDone) → MatchOption (component_at place self.old) ⊥ (λ c. StepsBare (kept C.progress self.old) (kept C.progress self.new) (λ w v. v ≡ finished place c done w)) }
        ensures clients { KeepsAllClients self.old self.new }
    {
        let component = &mut self.components[place];
        component.announce();
    }
}
