//! The conductor's turn: it hears what the components told, and a state that is due is sent to all, or a step of a link's change is made.

ghost use Rattle.std.specs.Prelude.{◌≡◌, ◌≤◌, true, false, length, take};
ghost use Rattle.omx_types.specs.declared.state.State.TheVariants.{Loaded};
ghost use Rattle.il_graph.specs.Shown.{KeepsAllFiles};
ghost use Rattle.conductor.specs.Hearing.{heard};
ghost use Rattle.conductor.specs.Phases.{Conducts, is_at};
ghost use Rattle.play_model.specs.Reached.{IsOver};
ghost use Rattle.play_model.specs.Play.{Play};
ghost use Rattle.play_loop.specs.Turns.{IsSend, SomePlay};
ghost use Rattle.play_run.specs.Playing.{HasParts, IsPlaying, TurnsTo, layout_of};
ghost use Rattle.play_run.specs.Sending.{AreViews, CanSend, SentOf};

use crate::lines::{log_act, name_at};
use crate::playing::Playing;
use conductor::{Conductor, Phase};
use il_graph::{Command, Progress, State};
use outside_io::{Sink, Source};
use play_log::texts::sent;
use play_stream_laws::{law_of_begun_streams, law_of_component_streams};

/// Whether the last state that was told is Loaded.
fn is_loaded(progress: Progress) -> bool
    ensures { result ≡ is_at Loaded progress.state }
{
    matches!(progress.state, Some(State::Loaded))
}

/// What the conductor answers by the views of its components, which are the first of these.
fn hear(conductor: &mut Conductor, views: &[Option<Progress>; 32], count: usize) -> Phase
    requires few { count ≤ 32 }
    requires many { count ≡ length conductor.old.told }
    ensures { Conducts (heard conductor.old (take count views.now)) result conductor.new }
{
    conductor.next(&views[..count])
}

impl<S: Source, K: Sink> Playing<S, K> {
    /// What each component has told, in script order.
    fn look(&self) -> [Option<Progress>; 32]
        requires { HasParts self.now }
        ensures many { length result ≡ 32 }
        ensures views { AreViews self.now.graph result (length self.now.plan.parts) }
    {
        let mut views = [None; 32];
        for place in 0..self.count() {
            let progress = self.progress(place);
            views[place as usize] = Some(progress);
        }
        views
    }

    /// Sends the state to all, of whom none refuses it.
    fn send_all(&mut self, state: State)
        requires { CanSend self.old state }
        ensures plan { self.new.plan ≡ self.old.plan }
        ensures files { KeepsAllFiles self.old.graph self.new.graph }
        ensures sent { SentOf self.old self.new state }
    {
        law_of_component_streams();
        for place in 0..self.count() {
            let h = self.handle(place);
            // None refuses it.
            let _ = self.graph.send_command(h, Command::StateSet(state));
            log_act(
                &mut self.log,
                None,
                &sent(name_at(&self.plan, place), state),
            );
        }
    }

    /// The state that is due is sent to all, or the step of a change that is due is made.
    pub(crate) fn conduct(&mut self) -> bool
        requires { SomePlay (IsPlaying self.old) }
        ensures plan { self.new.plan ≡ self.old.plan }
        ensures files { KeepsAllFiles self.old.graph self.new.graph }
        ensures turned { TurnsTo self.old self.new result IsSend }
    {
        let views = self.look();
        let count = self.count() as usize;
        law_of_begun_streams();
        match hear(&mut self.conductor, &views, count) {
            Phase::Send(state) => {
                self.send_all(state);
                self.graph.law_of_worlds();
                true
            }
            Phase::Change { component, step } => {
                self.change(component, step);
                true
            }
            Phase::Wait => false,
            Phase::Over => false,
            Phase::Failed => unreachable!(),
        }
    }

    /// Whether all have told the last Loaded.
    pub(crate) fn have_told_all(&self) -> bool
        requires { SomePlay (IsPlaying self.now) }
        ensures yes { result ≡ true → (p : Play) → IsPlaying self.now p → IsOver (layout_of self.now.plan) p }
        ensures nope { result ≡ false → (p : Play) → IsPlaying self.now p → IsOver (layout_of self.now.plan) p → ⊥ }
    {
        if self.conductor.sends() != 4 {
            return false;
        }
        for place in 0..self.count() {
            let progress = self.progress(place);
            if !is_loaded(progress) {
                return false;
            }
        }
        true
    }
}
