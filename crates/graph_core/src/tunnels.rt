//! Tunnels: two ports are joined and parted.

ghost use Rattle.std.specs.Prelude.{◌≡◌, ◌<◌, None, length, IsSomeAnd, MatchOption};
ghost use Rattle.il_machine.specs.World.{port_of};
ghost use Rattle.il_machine.specs.Tunnels.{widened, setup_refusal, drop_refusal, both_joined, both_parted, agreed_of, BothPorts};
ghost use Rattle.stock_laws.specs.Bare.{StepsBare};
ghost use Rattle.graph_core.specs.Entries.{kept, look_of, component_at};
ghost use Rattle.graph_core.specs.Clients.{KeepsAllClients};

use crate::core_graph::Core;
use il_machine::Link;
use note_queues::Client;
use omx_types::{OmxError, Supplier};
use port_rules::{drop_refusal, setup_refusal, widened};

impl<C: Client> Core<C> {
    /// Why the output of the first place isn't joined to the input of the second.
    pub fn setup_refusal(
        &self,
        giver: usize,
        output: u32,
        taker: usize,
        input: u32,
    ) -> Option<OmxError>
        requires giver { giver < length self.now.entries }
        requires taker { taker < length self.now.entries }
        ensures { MatchOption (component_at giver self.now) ⊥ (λ c. MatchOption (component_at taker self.now) ⊥ (λ d. result ≡ setup_refusal (look_of self.now).headers c d (port_of c output) (port_of d input))) }
    {
        setup_refusal(
            &self.stock,
            &self.components[giver],
            &self.components[taker],
            output,
            input,
        )
    }

    /// Why the tunnel between the output of the first place and the input of the second isn't dropped.
    pub fn drop_refusal(
        &self,
        giver: usize,
        output: u32,
        taker: usize,
        input: u32,
    ) -> Option<OmxError>
        requires giver { giver < length self.now.entries }
        requires taker { taker < length self.now.entries }
        ensures { MatchOption (component_at giver self.now) ⊥ (λ c. MatchOption (component_at taker self.now) ⊥ (λ d. result ≡ drop_refusal (look_of self.now).headers (port_of c output) (port_of d input))) }
    {
        drop_refusal(
            &self.stock,
            &self.components[giver],
            &self.components[taker],
            output,
            input,
        )
    }

    /// Joins the output of the first place to the input of the second, and answers which end makes the headers.
    pub fn setup_tunnel(&mut self, giver: usize, output: u32, taker: usize, input: u32) -> Supplier
        requires { IsSomeAnd (component_at giver self.old) (λ c. IsSomeAnd (component_at taker self.old) (λ d. setup_refusal (look_of self.old).headers c d (port_of c output) (port_of d input) ≡ None)) }
        ensures change { MatchOption (component_at giver self.old) ⊥ (λ c. MatchOption (component_at taker self.old) ⊥ (λ d. BothPorts (port_of c output) (port_of d input) (λ p q.
            (result ≡ agreed_of p q) × StepsBare (kept C.progress self.old) (kept C.progress self.new) (λ w v. v ≡ both_joined result giver c p taker d q w)))) }
        ensures clients { KeepsAllClients self.old self.new }
    {
        let Some(first) = self.components[giver].port(output) else {
            unreachable!()
        };
        let Some(second) = self.components[taker].port(input) else {
            unreachable!()
        };
        let supplier = tunnel_rules::agree_supplier(
            first.setting.supplier,
            second.setting.supplier,
        );
        let link = Link {
            peer: second.key,
            supplier,
        };
        self.components[giver].join(output, widened(first, second), link);
        let link = Link {
            peer: first.key,
            supplier,
        };
        self.components[taker].join(input, widened(second, first), link);
        supplier
    }

    /// Parts the output of the first place from the input of the second.
    pub fn drop_tunnel(&mut self, giver: usize, output: u32, taker: usize, input: u32)
        requires { IsSomeAnd (component_at giver self.old) (λ c. IsSomeAnd (component_at taker self.old) (λ d. drop_refusal (look_of self.old).headers (port_of c output) (port_of d input) ≡ None)) }
        ensures change { MatchOption (component_at giver self.old) ⊥ (λ c. MatchOption (component_at taker self.old) ⊥ (λ d. BothPorts (port_of c output) (port_of d input) (λ p q.
            StepsBare (kept C.progress self.old) (kept C.progress self.new) (λ w v. v ≡ both_parted giver c p taker d q w)))) }
        ensures clients { KeepsAllClients self.old self.new }
    {
        self.components[giver].part(output);
        self.components[taker].part(input);
    }
}
