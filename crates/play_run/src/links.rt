//! The turns of a link, whose headers its input supplies.

ghost use Rattle.std.specs.Prelude.{◌≡◌, ◌<◌, length};
ghost use Rattle.il_graph.specs.Shown.{KeepsAllFiles};
ghost use Rattle.play_model.specs.Acts.{Act};
ghost use Rattle.play_loop.specs.Turns.{SomePlay};
ghost use Rattle.play_turn_laws.specs.Turns.{IsAct, IsBackOf, is_did};
ghost use Rattle.play_run.specs.Playing.{IsPlaying, TurnsTo};

use crate::lines::{Slot, log_act, port_at};
use crate::playing::Playing;
use il_graph::Acted;
use outside_io::{Sink, Source};
use play_log::texts::{handed_back, handed_over, released, supplied};
use play_stream_laws::law_of_link_streams;

/// Whether a call was accepted.
pub(crate) fn did<E: Drop>(answer: Result<Acted, E>) -> bool
    ensures { result ≡ is_did answer }
{
    match answer {
        Ok(Acted::Did) => true,
        Ok(Acted::Idle(_)) => false,
        Err(_) => false,
    }
}

impl<S: Source, K: Sink> Playing<S, K> {
    /// The input makes a header.
    pub(crate) fn supply(&mut self, link: u32) -> bool
        requires there { link < length self.old.plan.joints }
        requires plays { SomePlay (IsPlaying self.old) }
        ensures plan { self.new.plan ≡ self.old.plan }
        ensures files { KeepsAllFiles self.old.graph self.new.graph }
        ensures turned { TurnsTo self.old self.new result (IsAct (Act.Supply link)) }
    {
        law_of_link_streams();
        let joint = self.joint(link);
        let h = self.handle(joint.taker);
        if !did(self.graph.supply(h, joint.input)) {
            return false;
        }
        let port = port_at(&self.plan, joint.taker, joint.input);
        log_act(
            &mut self.log,
            Slot::Supplied(link).number(),
            &supplied(port),
        );
        true
    }

    /// The input unmakes a header.
    pub(crate) fn release(&mut self, link: u32) -> bool
        requires there { link < length self.old.plan.joints }
        requires plays { SomePlay (IsPlaying self.old) }
        ensures plan { self.new.plan ≡ self.old.plan }
        ensures files { KeepsAllFiles self.old.graph self.new.graph }
        ensures turned { TurnsTo self.old self.new result (IsAct (Act.Release link)) }
    {
        law_of_link_streams();
        let joint = self.joint(link);
        let h = self.handle(joint.taker);
        if !did(self.graph.release(h, joint.input)) {
            return false;
        }
        let port = port_at(&self.plan, joint.taker, joint.input);
        log_act(
            &mut self.log,
            Slot::Released(link).number(),
            &released(port),
        );
        true
    }

    /// The input hands an emptied header to the output.
    pub(crate) fn hand_over(&mut self, link: u32) -> bool
        requires there { link < length self.old.plan.joints }
        requires plays { SomePlay (IsPlaying self.old) }
        ensures plan { self.new.plan ≡ self.old.plan }
        ensures files { KeepsAllFiles self.old.graph self.new.graph }
        ensures turned { TurnsTo self.old self.new result (IsAct (Act.HandOver link)) }
    {
        law_of_link_streams();
        let joint = self.joint(link);
        let h = self.handle(joint.taker);
        if !did(self.graph.hand_over(h, joint.input)) {
            return false;
        }
        let port = port_at(&self.plan, joint.taker, joint.input);
        log_act(
            &mut self.log,
            Slot::HandedOver(link).number(),
            &handed_over(port),
        );
        true
    }

    /// The output hands a filled header to the input, or one that it didn't use.
    pub(crate) fn hand_back(&mut self, link: u32) -> bool
        requires there { link < length self.old.plan.joints }
        requires plays { SomePlay (IsPlaying self.old) }
        ensures plan { self.new.plan ≡ self.old.plan }
        ensures files { KeepsAllFiles self.old.graph self.new.graph }
        ensures turned { TurnsTo self.old self.new result (IsBackOf link) }
    {
        law_of_link_streams();
        let joint = self.joint(link);
        let h = self.handle(joint.giver);
        if !did(self.graph.hand_back(h, joint.output)) {
            return false;
        }
        let port = port_at(&self.plan, joint.giver, joint.output);
        log_act(
            &mut self.log,
            Slot::HandedBack(link).number(),
            &handed_back(port),
        );
        true
    }
}
