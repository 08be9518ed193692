//! A component's work comes back.

ghost use Rattle.std.specs.Prelude.{◌≡◌, ℕ, List, None, option_and_then, IsSomeAnd};
ghost use Rattle.il_machine.specs.Answers.{component_named};
ghost use Rattle.il_machine.specs.Finishing.{Finish};
ghost use Rattle.il_machine.specs.Whole.{Stands, StepsWhere};
ghost use Rattle.il_machine.specs.World.{World};
ghost use Rattle.audio_parts.specs.AnyParts.{file_of as part_file};
ghost use Rattle.graph_core.specs.Clients.{KeepsAllClients};
ghost use Rattle.graph_core.specs.Finishing.{AreHandedBack};
ghost use Rattle.il_flow.specs.Steps.{shown};
ghost use Rattle.il_flow.specs.Works.{seen_done};
ghost use Rattle.il_graph.specs.Finishing.{IsItsOwn, Returns};
ghost use Rattle.il_graph.specs.HandedIn.{KeepsHandedIn};
ghost use Rattle.il_graph.specs.Shown.{kept, look_of, file_of, KeepsFiles};

use crate::claimed::Done;
use crate::graph::Graph;
use audio_parts::{AnyPart, KindPart, law_of_shown};
use il_flow::{Brought, Seat};
use note_queues::Client;
use outside_io::{Sink, Source};
use part_api::Part;
use std::mem::replace;
use work_landing::Step;

/// Ends a part that has no file.
fn end_part<S: Source, K: Sink>(part: Option<Seat<AnyPart<S, K>>>)
    requires { option_and_then (λ part. part_file part) part ≡ None }
{
    let Some(part) = part else {
        return;
    };
    match part.into_part().into_file() {
        None => {}
        Some(_) => unreachable!(),
    }
}

impl<S: Source, K: Sink, C: Client> Graph<S, K, C> {
    /// The work of a component comes back, from its step or as an announcement, and its part with its file.
    pub fn finish(&mut self, done: Done<S, K>)
        requires comes { (w : World) × (took : List ℕ) × (Stands (kept C.progress self.old) w × Returns w (seen_done took done) (shown (⟦<AnyPart<S, K> as Part>⟧.left done.part) (⟦<AnyPart<S, K> as Part>⟧.rest done.part) (⟦<AnyPart<S, K> as Part>⟧.kept done.part) (⟦<AnyPart<S, K> as Part>⟧.writing done.part))) }
        requires its { IsSomeAnd (component_named done.component (look_of self.old).components) (λ c. IsItsOwn c done.announces done.fault (⟦<AnyPart<S, K> as Part>⟧.terms done.part) (⟦<AnyPart<S, K> as Part>⟧.failed done.part)) }
        requires handed { AreHandedBack done.headers (look_of self.old) }
        ensures step { (took : List ℕ) → StepsWhere (kept C.progress self.old) (kept C.progress self.new)
            (λ w. Returns w (seen_done took done) (shown (⟦<AnyPart<S, K> as Part>⟧.left done.part) (⟦<AnyPart<S, K> as Part>⟧.rest done.part) (⟦<AnyPart<S, K> as Part>⟧.kept done.part) (⟦<AnyPart<S, K> as Part>⟧.writing done.part)))
            (λ w v. Finish w (seen_done took done) v) }
        ensures file { file_of done.component.generation self.new ≡ part_file done.part }
        ensures files { KeepsFiles done.component.generation self.old self.new }
        ensures held { KeepsHandedIn (look_of self.old) (look_of self.new) }
        ensures clients { KeepsAllClients self.old.core self.new.core }
    {
        let Some(place) = self.core.place_of(done.component()) else {
            unreachable!()
        };
        let (mut desk, brought) = done.into_parts();
        law_of_shown(&desk.part);
        let Some(brought) = brought else {
            self.core.finish_announcement(place);
            end_part(replace(&mut self.parts[place], Some(Seat { desk })));
            self.core.close_out();
            return;
        };
        let Brought { frames, fault } = brought;
        let left = desk.part.frames_left().unwrap_or(0);
        self.core.finish(
            place,
            &mut desk.headers,
            Step {
                frames,
                fault,
                left,
            },
        );
        end_part(replace(&mut self.parts[place], Some(Seat { desk })));
        self.core.close_out();
    }
}
