//! A component's work goes out.

ghost use Rattle.std.specs.Prelude.{◌≡◌, false, None, IsSomeAnd};
ghost use Rattle.part_api.specs.Terms.{Terms};
ghost use Rattle.il_machine.specs.Answers.{component_named};
ghost use Rattle.il_machine.specs.Claims.{Claim};
ghost use Rattle.il_machine.specs.Whole.{Steps};
ghost use Rattle.audio_parts.specs.AnyParts.{file_of as part_file};
ghost use Rattle.graph_core.specs.Clients.{KeepsAllClients};
ghost use Rattle.graph_core.specs.Claiming.{AreLent};
ghost use Rattle.il_flow.specs.Steps.{shown};
ghost use Rattle.il_graph.specs.Claiming.{AreTermsOf, IsSoFar, OnNoWork, OnWork, claimed_as};
ghost use Rattle.il_graph.specs.Finishing.{IsItsOwn};
ghost use Rattle.il_graph.specs.HandedIn.{KeepsHandedIn};
ghost use Rattle.il_graph.specs.Shown.{kept, look_of, file_of, KeepsFiles};

use crate::claimed::{Claimed, without_work};
use crate::graph::Graph;
use crate::graph::preparing::{make_work, open};
use audio_parts::{AnyPart, law_of_shown, lawful_terms};
use note_queues::Client;
use omx_types::{Handle, OmxError};
use outside_io::{Sink, Source};
use part_api::Part;

impl<S: Source, K: Sink, C: Client> Graph<S, K, C> {
    /// The work of a component goes out: its part with its file, and the front of `todo` of each output, and of each input that hasn't
    /// ended. A late source whose output has another format than its file has to tell that first: its work has no header.
    pub fn claim(&mut self, h: Handle) -> Result<Claimed<S, K>, OmxError>
        ensures step { (t : Terms) → AreTermsOf h (look_of self.old) t → Steps (kept C.progress self.old) (kept C.progress self.new) (λ w v. Claim w h (claimed_as t result) v
            × OnWork result (λ work. IsSoFar t v work.component.generation (shown (⟦<AnyPart<S, K> as Part>⟧.left work.part) (⟦<AnyPart<S, K> as Part>⟧.rest work.part) (⟦<AnyPart<S, K> as Part>⟧.kept work.part) (⟦<AnyPart<S, K> as Part>⟧.writing work.part)))) }
        ensures terms { (t : Terms) → AreTermsOf h (look_of self.old) t → OnWork result (λ work. work.announces ≡ false → ⟦<AnyPart<S, K> as Part>⟧.terms work.part ≡ t) }
        ensures its { OnWork result (λ work. IsSomeAnd (component_named h (look_of self.new).components) (λ c. IsItsOwn c work.announces None (⟦<AnyPart<S, K> as Part>⟧.terms work.part) (⟦<AnyPart<S, K> as Part>⟧.failed work.part))) }
        ensures whole { OnWork result (λ work. ⟦<AnyPart<S, K> as Part>⟧.failed work.part ≡ false) }
        ensures component { OnWork result (λ work. work.component ≡ h) }
        ensures lent { OnWork result (λ work. AreLent h.generation work.headers (look_of self.new)) }
        ensures file { OnWork result (λ work. part_file work.part ≡ file_of h.generation self.old) }
        ensures gone { OnWork result (λ work. file_of h.generation self.new ≡ None) }
        ensures files { KeepsFiles h.generation self.old self.new }
        ensures held { KeepsHandedIn (look_of self.old) (look_of self.new) }
        ensures clients { KeepsAllClients self.old.core self.new.core }
        ensures unchanged { OnNoWork result (self.new ≡ self.old) }
    {
        self.core.law_of_worlds();
        let Some(place) = self.core.place_of(h) else {
            return Err(OmxError::InvalidComponent);
        };
        if let Some(idle) = self.core.claim_idle(place) {
            return Ok(without_work(idle));
        }
        let Some(seat) = self.parts[place].take() else {
            unreachable!()
        };
        let Some(component) = self.core.at(place) else {
            unreachable!()
        };
        let announces = self.core.must_announce(place);
        lawful_terms();
        let mut desk = open(seat, component, announces);
        law_of_shown(&desk.part);
        self.core.claim(place, &mut desk.headers);
        self.core.close_out();
        Ok(Claimed::Work(make_work(h, desk, announces)))
    }
}
