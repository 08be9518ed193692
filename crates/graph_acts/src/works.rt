//! Acts by which the work of a component goes out and comes back, and its step between them.
ghost use Rattle.std.specs.Prelude.{◌≡◌, option_copied, IfSome};
ghost use Rattle.audio_parts.specs.Shown.{shown_by};
ghost use Rattle.graph_acts.specs.declared.act.Act.TheVariants as asks;
ghost use Rattle.graph_acts.specs.Hiding.{shown_done};
ghost use Rattle.graph_acts.specs.Holding.{CanFinish};
ghost use Rattle.graph_acts.specs.Lending.{lent_as};
ghost use Rattle.graph_acts.specs.Moving.{Moved};
ghost use Rattle.graph_acts.specs.Plain.{sight_of};
ghost use Rattle.graph_acts.specs.Sinks.{sink_in};
ghost use Rattle.graph_acts.specs.Working.{IsRunOf, out_of};

use crate::act::Reply;
use crate::claimed::LentClaim;
use crate::laws::law_of_parts;
use crate::lent::{DoneWork, LentWork};
use crate::served::Served;
use il_graph::{Claimed as Answer, Done};
use note_queues::Client;
use omx_types::{Handle, OmxError};
use outside_io::{Sink, Source};
use part_api::PartFault;

impl<S: Source, K: Sink> LentWork<S, K> {
    /// Does the step of the work, away from its graph. The pass that got the work may then bring it back.
    pub fn run(self) -> DoneWork<S, K>
        ensures { IsRunOf S.Source K.Sink (out_of self) result }
    {
        law_of_parts::<S, K>();
        let LentWork { work } = self;
        DoneWork { done: work.run() }
    }
}

impl<S: Source, K: Sink> DoneWork<S, K> {
    /// The component whose work it was.
    pub fn component(&self) -> Handle
        ensures { result ≡ self.now.component }
    {
        self.done.component()
    }

    /// The fault by which the step failed.
    pub fn fault(&self) -> Option<PartFault>
        ensures { result ≡ self.now.fault }
    {
        self.done.fault()
    }

    /// How many frames the step took.
    pub fn frames(&self) -> u32
        ensures { result ≡ self.now.frames }
    {
        self.done.frames()
    }

    /// The sink that its part writes to, where it has a file.
    pub fn sink(&self) -> Option<&K>
        ensures sink { option_copied result ≡ sink_in self.now.part }
        ensures kept { IfSome (sink_in self.now.part) (λ snk. (self.now.part).kept ≡ K.told snk) }
    {
        law_of_parts::<S, K>();
        self.done.part().sink()
    }

    fn into_done(self) -> Done<S, K>
        ensures { self ≡ shown_done (shown_by S.told K.told K.name) result }
    {
        let DoneWork { done } = self;
        done
    }
}

/// The graph's answer to a claim.
fn lend<S: Source, K: Sink>(
    answer: Result<Answer<S, K>, OmxError>,
) -> Result<LentClaim<S, K>, OmxError>
    ensures { result ≡ lent_as (shown_by S.told K.told K.name) answer }
{
    match answer {
        Ok(Answer::Work(work)) => Ok(LentClaim::Work(LentWork { work })),
        Ok(Answer::Busy) => Ok(LentClaim::Busy),
        Ok(Answer::NotRunning) => Ok(LentClaim::NotRunning),
        Ok(Answer::Ended) => Ok(LentClaim::Ended),
        Ok(Answer::Held(port)) => Ok(LentClaim::Held(port)),
        Ok(Answer::NoData(port)) => Ok(LentClaim::NoData(port)),
        Ok(Answer::NoRoom(port)) => Ok(LentClaim::NoRoom(port)),
        Ok(Answer::Events { room, need }) => Ok(LentClaim::Events { room, need }),
        Err(error) => Err(error),
    }
}

impl<S: Source, K: Sink, C: Client> Served<S, K, C> {
    pub(crate) fn claim(&mut self, h: Handle) -> Reply<S, K, C>
        ensures { Moved (sight_of C.Client S.Source K.Sink) (asks.Claim h) result self.old.graph self.new.graph }
    {
        law_of_parts::<S, K>();
        Reply::Claim(lend(self.graph.claim(h)))
    }

    pub(crate) fn finish(&mut self, done: DoneWork<S, K>) -> Reply<S, K, C>
        requires { CanFinish (sight_of C.Client S.Source K.Sink) self.old.graph done }
        ensures { Moved (sight_of C.Client S.Source K.Sink) (asks.Finish done) result self.old.graph self.new.graph }
    {
        law_of_parts::<S, K>();
        self.graph.finish(done.into_done());
        Reply::Finish
    }
}
