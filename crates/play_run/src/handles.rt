//! The components of a play by their places, and what each has told.

ghost use Rattle.std.specs.Prelude.{◌≡◌, ◌<◌, ◌≤◌, length};
ghost use Rattle.play_plan_laws.specs.Casting.{joint_of, place_of};
ghost use Rattle.play_graph.specs.Graphs.{IsHandleAt};
ghost use Rattle.play_run.specs.Playing.{HasParts, IsProgressAt};

use crate::playing::Playing;
use il_graph::{Handle, Progress};
use outside_io::{Sink, Source};
use play_forms::Joint;
use play_graph::{count, handle, joint, link_count};

impl<S: Source, K: Sink> Playing<S, K> {
    /// The component at the place in the script.
    pub(crate) fn handle(&self, place: u32) -> Handle
        requires there { place < length self.now.plan.parts }
        requires parts { HasParts self.now }
        ensures { IsHandleAt self.now.graph place result }
    {
        handle(&self.graph, place)
    }

    /// What the component has told, of all that it told.
    pub(crate) fn progress(&self, place: u32) -> Progress
        requires there { place < length self.now.plan.parts }
        requires parts { HasParts self.now }
        ensures { IsProgressAt self.now.graph place result }
    {
        self.graph.law_of_worlds();
        let h = self.handle(place);
        match self.graph.progress(h) {
            Ok(Some(progress)) => progress,
            Ok(None) => unreachable!(),
            Err(_) => unreachable!(),
        }
    }

    /// How many components there are.
    pub(crate) fn count(&self) -> u32
        requires { HasParts self.now }
        ensures count { result ≡ length self.now.plan.parts }
        ensures few { result ≤ 32 }
    {
        count(&self.plan)
    }

    /// How many links there are.
    pub(crate) fn link_count(&self) -> u32
        requires { length self.now.plan.joints ≤ 1024 }
        ensures { result ≡ length self.now.plan.joints }
    {
        link_count(&self.plan)
    }

    /// The place of the component that has that turn.
    pub(crate) fn place(&self, component: u32) -> u32
        requires { component < length self.now.plan.order }
        ensures { result ≡ place_of self.now.plan component }
    {
        self.plan.order()[component as usize]
    }

    pub(crate) fn joint(&self, link: u32) -> Joint
        requires { link < length self.now.plan.joints }
        ensures { result ≡ joint_of self.now.plan link }
    {
        joint(&self.plan, link)
    }
}
