//! The turns of a component: its notes, its commands, and the steps of its part.

ghost use Rattle.std.specs.Prelude.{◌≡◌, ◌<◌, IfErr, IfNone, IfOk, IfSome, OnOk, length};
ghost use Rattle.note_queues.specs.declared.taken.Taken.TheVariants.{Told};
ghost use Rattle.il_machine.specs.Components.{moved_by};
ghost use Rattle.part_api.specs.Terms.{Terms};
ghost use Rattle.il_machine.specs.Claims.{ClaimedWork, WorkSeen};
ghost use Rattle.audio_parts.specs.Objects.{ObjectShows, ObjectStays};
ghost use Rattle.il_graph.specs.Shown.{KeepsAllFiles};
ghost use Rattle.il_graph.specs.Claiming.{told_by as seen_by};
ghost use Rattle.il_graph.specs.declared.claimed.Claimed.TheVariants as answers;
ghost use Rattle.play_world_laws.specs.Tellings.{IsTellingOf};
ghost use Rattle.play_turn_laws.specs.Turns.{IsRunOf, IsStepOf};
ghost use Rattle.play_loop.specs.Turns.{SomePlay};
ghost use Rattle.play_graph.specs.Stops.{IsEvent};
ghost use Rattle.play_run.specs.Playing.{FilesStay, IsPlaying, TurnsTo, layout_of};
ghost use Rattle.play_run.specs.Turning.{FailsOn};

use crate::failure::Failure;
use crate::lines::{Slot, log_act, name_at};
use crate::links::did;
use crate::playing::Playing;
use conductor::PlayClient;
use il_graph::{Call, Claimed, Client, Took, Work};
use note_queues::Taken;
use omx_types::Event;
use outside_io::{Sink, Source};
use play_log::texts::{claimed, ended, finished, ran, took};
use play_stream_laws::{law_of_component_streams, law_of_stepped_streams, law_of_written_streams};

/// The event that the note tells.
fn event_of(taken: Taken) -> Event
    requires { IsEvent taken }
    ensures { taken ≡ Told result }
{
    match taken {
        Taken::Told(event) => event,
        Taken::EmptyDone(_header) => unreachable!(),
        Taken::FillDone(_header) => unreachable!(),
    }
}

/// The client object, told the event.
fn told_of(mut client: PlayClient, event: Event) -> PlayClient
    ensures { result ≡ moved_by event client }
{
    client.hear(event);
    client
}

/// The work, if there is one.
fn work_of<S: Source, K: Sink>(claimed: Claimed<S, K>) -> Option<Work<S, K>>
    ensures some { IfSome result (λ work. claimed ≡ answers.Work work) }
    ensures none { IfNone result ((t : Terms) (work : WorkSeen) → seen_by t claimed ≡ ClaimedWork work → ⊥) }
{
    match claimed {
        Claimed::Work(work) => Some(work),
        Claimed::Busy => None,
        Claimed::NotRunning => None,
        Claimed::Ended => None,
        Claimed::Held(_) => None,
        Claimed::NoData(_) => None,
        Claimed::NoRoom(_) => None,
        Claimed::Events { room: _, need: _ } => None,
    }
}

impl<S: Source, K: Sink> Playing<S, K> {
    /// The component's oldest note is told to its client object.
    pub(crate) fn tell(&mut self, component: u32) -> bool
        requires there { component < length self.old.plan.parts }
        requires plays { SomePlay (IsPlaying self.old) }
        ensures plan { self.new.plan ≡ self.old.plan }
        ensures files { KeepsAllFiles self.old.graph self.new.graph }
        ensures turned { TurnsTo self.old self.new result (IsTellingOf (layout_of self.old.plan) component) }
    {
        law_of_component_streams();
        let place = self.place(component);
        let h = self.handle(place);
        self.graph.law_of_worlds();
        match self.graph.take_note(h) {
            Ok(Took::Call(call)) => {
                let Call { client, taken } = call;
                let event = event_of(taken);
                let name = name_at(&self.plan, place);
                log_act(&mut self.log, None, &took(name, event));
                self.graph.law_of_worlds();
                self.graph.end_note(h, told_of(client, event));
                log_act(&mut self.log, None, &ended(name));
                true
            }
            Ok(Took::None) => false,
            Ok(Took::Busy) => false,
            Err(_) => false,
        }
    }

    /// The component's command is run.
    pub(crate) fn run(&mut self, component: u32) -> bool
        requires there { component < length self.old.plan.parts }
        requires plays { SomePlay (IsPlaying self.old) }
        ensures plan { self.new.plan ≡ self.old.plan }
        ensures files { KeepsAllFiles self.old.graph self.new.graph }
        ensures turned { TurnsTo self.old self.new result (IsRunOf (layout_of self.old.plan) component) }
    {
        law_of_component_streams();
        let place = self.place(component);
        let h = self.handle(place);
        if !did(self.graph.run_command(h)) {
            return false;
        }
        log_act(&mut self.log, None, &ran(name_at(&self.plan, place)));
        true
    }

    /// The component's part does a step.
    pub(crate) fn step(&mut self, component: u32) -> Result<bool, Failure>
        requires there { component < length self.old.plan.parts }
        requires plays { SomePlay (IsPlaying self.old) }
        ensures plan { self.new.plan ≡ self.old.plan }
        ensures objects { OnOk result (FilesStay (ObjectStays S.name S.size S.told S.ends S.offset S.faults K.name K.faults) self.old self.new) }
        ensures turned { IfOk result (λ acted. TurnsTo self.old self.new acted (IsStepOf (layout_of self.old.plan) component)) }
        ensures failed { IfErr result (FailsOn (ObjectStays S.name S.size S.told S.ends S.offset S.faults K.name K.faults)
            (ObjectShows S.size S.ends S.offset S.faults K.faults) self.old self.new) }
    {
        law_of_component_streams();
        law_of_stepped_streams();
        law_of_written_streams();
        let place = self.place(component);
        let h = self.handle(place);
        self.graph.law_of_worlds();
        let answer = match self.graph.claim(h) {
            Ok(answer) => answer,
            Err(_) => return Ok(false),
        };
        let work = match work_of(answer) {
            Some(work) => work,
            None => return Ok(false),
        };
        let name = name_at(&self.plan, place);
        log_act(&mut self.log, Slot::Claimed(place).number(), &claimed(name));
        let done = work.run();
        let frames = done.frames();
        let fault = done.fault();
        self.graph.finish(done);
        match fault {
            None => {
                log_act(
                    &mut self.log,
                    Slot::Finished(place).number(),
                    &finished(name, frames),
                );
                Ok(true)
            }
            Some(fault) => Err(Failure {
                component: place,
                fault,
            }),
        }
    }
}
