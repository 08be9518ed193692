//! A replay at the end of its lines.

ghost use Rattle.std.specs.Prelude.{◌≡◌, ◌<◌, ◌≤◌, ℕ, Bool, List, length, slice_get, Some, None, true, false};
ghost use Rattle.omx_types.specs.declared.state.State.TheVariants.{Loaded};
ghost use Rattle.il_machine.specs.declared.answer.Progress.{Progress as Told};
ghost use Rattle.il_machine.specs.Whole.{Always};
ghost use Rattle.il_graph.specs.Shown.{TellWritten};
ghost use Rattle.play_graph.specs.Ending.{AreFilesOf};
ghost use Rattle.play_graph.specs.Graphs.{kept_of};
ghost use Rattle.play_graph.specs.Making.{AreGone};
ghost use Rattle.audit_forms.specs.Audited.{Case, Moment};
ghost use Rattle.run_audit.specs.Opening.{play_sight};
ghost use Rattle.run_audit.specs.Seeing.{compared};
ghost use Rattle.run_audit.specs.Ending.{AreWhole, GiveAll, GivesAll, HasCome, HasUnlike, IsAtRest, IsGiven, IsUngiven};
ghost use Rattle.run_audit.specs.Replaying.{IsReplay};

use crate::replay::Replay;
use audio_parts::PartFile;
use compared_files::Comparing;
use conductor::PlayClient;
use graph_acts::Served;
use il_machine::Progress;
use omx_types::State;
use outside_io::Source;
use play_graph::end_graph;

/// Whether there is nothing at each place.
fn are_none<T>(things: &[Option<T>]) -> bool
    ensures yes { result ≡ true → (place : ℕ) → place < length things.now → slice_get things.now place ≡ Some None }
    ensures no { result ≡ false → (place : ℕ) × (thing : T) × (slice_get things.now place ≡ Some (Some thing)) }
{
    for thing in things {
        if thing.is_some() {
            return false;
        }
    }
    true
}

/// Whether each component has told Loaded last.
fn are_loaded(told: &[Progress]) -> bool
    ensures yes { result ≡ true → (place : ℕ) (progress : Told) → slice_get told.now place ≡ Some progress → progress.state ≡ Some Loaded }
    ensures no { result ≡ false → (place : ℕ) × (progress : Told) × (slice_get told.now place ≡ Some progress) × (progress.state ≡ Some Loaded → ⊥) }
{
    for progress in told {
        if !matches!(progress.state, Some(State::Loaded)) {
            return false;
        }
    }
    true
}

/// Whether it isn't a comparison that wasn't given its whole file.
fn is_given<S: Source>(file: &Option<PartFile<S, Comparing<S>>>) -> bool
    ensures yes { result ≡ true → IsGiven S.told file.now }
    ensures no { result ≡ false → IsUngiven S.told file.now }
    ensures gives { result ≡ true → GivesAll S.told S.ends file.now }
{
    match file {
        Some(PartFile::To { snk, frames: _ }) => snk.is_whole(),
        Some(PartFile::From { .. }) => true,
        None => true,
    }
}

/// Whether each comparison was given its whole file.
pub(crate) fn are_whole<S: Source>(files: &[Option<PartFile<S, Comparing<S>>>]) -> bool
    ensures yes { result ≡ true → AreWhole S.told files.now }
    ensures no { result ≡ false → HasUnlike S.told files.now }
    ensures gives { result ≡ true → GiveAll S.told S.ends files.now }
{
    for file in files {
        if !is_given(file) {
            return false;
        }
    }
    true
}

/// Lets go places at which is nothing.
pub(crate) fn let_go_places<T>(things: Vec<Option<T>>)
    requires { (place : ℕ) → place < length things.items → slice_get things.items place ≡ Some None }
{
    let mut rest = things;
    while let Some(thing) = rest.pop() {
        match thing {
            None => {}
            Some(_) => unreachable!(),
        }
    }
    rest.destroy_empty();
}

impl<S: Source> Replay<S, PlayClient> {
    /// Whether the lines may end here, but for what the sinks were given.
    pub(crate) fn is_at_rest(&self) -> bool
        requires few { length self.now.plan.parts ≤ 32 }
        ensures yes { result ≡ true → (tells : Bool) (x : Case) (now : Moment) → HasCome x now
            → IsReplay (play_sight S.Source) tells self.now x now → IsAtRest x now }
        ensures no { result ≡ false → (tells : Bool) (x : Case) (now : Moment) → HasCome x now
            → IsReplay (play_sight S.Source) tells self.now x now → IsAtRest x now → ⊥ }
    {
        self.served.graph.law_of_worlds();
        if !self.order.is_complete(&self.plan) {
            return false;
        }
        if !are_none(self.clients.as_slice()) {
            return false;
        }
        are_loaded(self.told.as_slice())
    }

    /// Takes the graph apart of a replay that is at rest. Each file comes to the place of its component.
    pub(crate) fn take_apart(self, files: &mut [Option<PartFile<S, Comparing<S>>>])
        requires rests { (tells : Bool) × (x : Case) × (now : Moment) × HasCome x now
            × IsReplay (play_sight S.Source) tells self x now × IsAtRest x now }
        requires many { length files.old ≡ length self.plan.parts }
        requires gone { AreGone (length self.plan.parts) files.old }
        ensures many { length files.new ≡ length files.old }
        ensures files { AreFilesOf self.served.graph (length self.plan.parts) files.new }
        ensures written { Always (kept_of self.served.graph) (TellWritten (compared S.Source).told self.served.graph) }
    {
        let Replay {
            served,
            plan,
            handles: _,
            works,
            clients: _,
            told: _,
            order: _,
        } = self;
        let Served { graph, alloc: _ } = served;
        graph.law_of_worlds();
        let_go_places(works);
        end_graph(graph, &plan, files);
    }
}
