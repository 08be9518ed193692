//! Components are made and freed, and their values are set.

ghost use Rattle.std.specs.Prelude.{◌≡◌, ◌<◌, ◌≤◌, ◌++◌, ◌∷◌, [], Some, None, true, false, length, slice_get, vec_len, vec_capacity, IsSomeAnd, IfOk, IfErr, OnErr, MatchOption};
ghost use Rattle.omx_types.specs.declared.handle.Handle.{Handle as Named};
ghost use Rattle.il_machine.specs.Kinds.{ports_in, inputs_of, outputs_of};
ghost use Rattle.il_machine.specs.Settings.{IsSized};
ghost use Rattle.il_machine.specs.World.{fresh, with_component};
ghost use Rattle.il_machine.specs.Components.{is_full, is_vacant, no_progress, with_new_component, without_component, free_refusal};
ghost use Rattle.il_machine.specs.Parameters.{set_parameter_refusal, set_config_refusal, with_value};
ghost use Rattle.il_machine.specs.Places.{first_place};
ghost use Rattle.il_machine.specs.Stock.{added};
ghost use Rattle.stock_laws.specs.Bare.{StepsBare};
ghost use Rattle.registry.specs.Handles.{resolved, live, AllGiven};
ghost use Rattle.il_component.specs.Entries.{component_of};
ghost use Rattle.port_stock.specs.Kept.{stocked};
ghost use Rattle.port_stock.specs.Conditions.{IsWithoutPorts};
ghost use Rattle.graph_core.specs.Registered.{Shifted};
ghost use Rattle.graph_core.specs.Entries.{is_entry_at, client_named, client_of, component_at, components_of, kept, look_of};
ghost use Rattle.graph_core.specs.Making.{value_refusal};
ghost use Rattle.graph_core.specs.Clients.{KeepsClients, KeepsAllClients};

use crate::core_graph::Core;
use crate::units::enter;
use il_component::Component;
use note_queues::Client;
use omx_types::{Handle, Kind, OmxError, Param, ParamKey};
use port_rules::{free_refusal, set_parameter_refusal};
use port_stock::Stock;
use registry::Registry;
use resource_book::Row;
use std::alloc::Global;

/// How many ports a component of the kind has: inputs and outputs.
fn sides(kind: Kind) -> (u32, u32)
    requires { IsSized kind }
    ensures inputs { result.0 ≡ inputs_of kind }
    ensures outputs { result.1 ≡ outputs_of kind }
    ensures few_inputs { result.0 ≤ 8 }
    ensures few_outputs { result.1 ≤ 8 }
{
    (param_store::inputs(kind), param_store::outputs(kind))
}

/// A component and its ports, for all of which memory is taken here. Only its number is its own yet: the slot of its handle is to come.
fn make<C>(
    stock: &mut Stock,
    alloc: Global,
    number: u64,
    kind: Kind,
    client: C,
) -> Result<Component<C>, C>
    requires sized { IsSized kind }
    requires without { IsWithoutPorts number (stocked stock.old) }
    ensures component { IfOk result (λ c. component_of c ≡ fresh (record { slot = 0; generation = number }) kind) }
    ensures client { IfOk result (λ c. c.queues.client ≡ Some client) }
    ensures ports { IfOk result (λ c. stocked stock.new ≡ added number (ports_in kind) (stocked stock.old)) }
    ensures handed_back { IfErr result (λ back. back ≡ client) }
    ensures unchanged { OnErr result (stocked stock.new ≡ stocked stock.old) }
{
    let h = Handle {
        slot: 0,
        generation: number,
    };
    let component = Component::fresh(alloc, h, kind, client)?;
    let (inputs, outputs) = sides(kind);
    match stock.add_ports(alloc, number, inputs, outputs) {
        Ok(()) => Ok(component),
        Err(_) => Err(component.close()),
    }
}

/// Puts a component behind all others, where there is room.
fn put_last<C>(components: &mut Vec<Component<C>>, component: Component<C>)
    requires { vec_len components.old < vec_capacity components.old }
    ensures items { components.new.items ≡ components.old.items ++ component ∷ [] }
    ensures capacity { vec_capacity components.old ≤ vec_capacity components.new }
{
    match components.push(component) {
        Ok(()) => {}
        Err(_) => unreachable!(),
    }
}

/// Gives each component from the place on its place.
fn renumber<C>(registry: &mut Registry<usize>, components: &[Component<C>], from: usize)
    requires from { from ≤ length components.now }
    requires shifted { Shifted from components.now registry.old }
    requires given { AllGiven registry.old }
    ensures places { (h : Named) → resolved registry.new h ≡ first_place (is_entry_at h) components.now }
    ensures given { AllGiven registry.new }
    ensures numbered { registry.new.given ≡ registry.old.given }
    ensures live { live registry.new ≡ live registry.old }
{
    for place in from..components.len() {
        let component = &components[place];
        match registry.set(component.handle(), place) {
            Ok(()) => {}
            Err(_) => unreachable!(),
        }
    }
}

impl<C: Client> Core<C> {
    /// Adds a component of the kind. Its handle has the next number, and any vacant slot. Where memory is wanted the client object is handed back.
    pub fn add(&mut self, alloc: Global, kind: Kind, client: C) -> Result<Handle, C>
        requires sized { IsSized kind }
        requires room { is_full (look_of self.old) ≡ false }
        requires new { C.progress client ≡ no_progress }
        ensures made { IfOk result (λ h. StepsBare (kept C.progress self.old) (kept C.progress self.new) (λ w v. v ≡ with_new_component h kind w)) }
        ensures generation { IfOk result (λ h. h.generation ≡ self.old.numbered) }
        ensures vacant { IfOk result (λ h. is_vacant h.slot (components_of self.old.entries) ≡ true) }
        ensures client { IfOk result (λ h. client_of h self.new ≡ Some client) }
        ensures clients { IfOk result (λ h. KeepsClients h self.old self.new) }
        ensures handed_back { IfErr result (λ back. back ≡ client) }
        ensures unchanged { OnErr result (kept C.progress self.new ≡ kept C.progress self.old) }
        ensures entries_unchanged { OnErr result (self.new.entries ≡ self.old.entries) }
    {
        let number = self.registry.given();
        let mut component = make(&mut self.stock, alloc, number, kind, client)?;
        match self.registry.insert(self.components.len()) {
            Ok(h) => {
                component.set_handle(h);
                put_last(&mut self.components, component);
                Ok(h)
            }
            Err(_) => {
                self.stock.remove_ports(number);
                Err(component.close())
            }
        }
    }

    /// Why the component at the place isn't freed.
    pub fn free_refusal(&self, place: usize) -> Option<OmxError>
        requires { place < length self.now.entries }
        ensures { MatchOption (component_at place self.now) ⊥ (λ c. result ≡ free_refusal (look_of self.now).headers c) }
    {
        let component = &self.components[place];
        free_refusal(&self.stock, component)
    }

    /// Takes the component at the place out, and answers its client object.
    pub fn free_handle(&mut self, place: usize) -> C
        requires { IsSomeAnd (component_at place self.old) (λ c. free_refusal (look_of self.old).headers c ≡ None) }
        ensures freed { MatchOption (component_at place self.old) ⊥ (λ c. StepsBare (kept C.progress self.old) (kept C.progress self.new) (λ w v. v ≡ without_component place c w)) }
        ensures client { MatchOption (slice_get self.old.entries place) ⊥ (λ e. e.queues.client ≡ Some result) }
        ensures gone { MatchOption (component_at place self.old) ⊥ (λ c. client_named c.handle self.new ≡ None) }
        ensures clients { MatchOption (component_at place self.old) ⊥ (λ c. KeepsClients c.handle self.old self.new) }
    {
        let component = &self.components[place];
        let h = component.handle();
        match self.registry.remove(h) {
            Ok(_) => {}
            Err(_) => unreachable!(),
        }
        let component = self.components.remove(place);
        self.marked.move_down(place);
        renumber(&mut self.registry, &self.components, place);
        self.stock.remove_ports(h.generation);
        self.book.put(Row::blank(h.generation));
        component.close()
    }

    /// Why a parameter of the component at the place isn't set.
    pub fn set_parameter_refusal(
        &self,
        place: usize,
        key: ParamKey,
        value: Param,
    ) -> Option<OmxError>
        requires { place < length self.now.entries }
        ensures { MatchOption (component_at place self.now) ⊥ (λ c. result ≡ set_parameter_refusal (look_of self.now).headers c key value) }
    {
        let component = &self.components[place];
        set_parameter_refusal(&self.stock, component, key, value)
    }

    /// Why a config of the component at the place isn't set.
    pub fn set_config_refusal(&self, place: usize, key: ParamKey, value: Param) -> Option<OmxError>
        requires { place < length self.now.entries }
        ensures { MatchOption (component_at place self.now) ⊥ (λ c. result ≡ set_config_refusal c key value) }
    {
        let component = &self.components[place];
        component.set_config_refusal(key, value)
    }

    /// Sets a parameter or a config of the component at the place, which may be set.
    pub fn set_value(&mut self, place: usize, key: ParamKey, config: bool, value: Param)
        requires { IsSomeAnd (component_at place self.old) (λ c. value_refusal config (look_of self.old).headers c key value ≡ None) }
        ensures set { MatchOption (component_at place self.old) ⊥ (λ c. StepsBare (kept C.progress self.old) (kept C.progress self.new) (λ w v. v ≡ with_component place (with_value key value c) w)) }
        ensures clients { KeepsAllClients self.old self.new }
    {
        let component = &mut self.components[place];
        component.set_value(key, config, value);
        enter(&mut self.book, component);
    }
}
