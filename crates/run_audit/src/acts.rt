//! The act of a line is made.

ghost use Rattle.std.specs.Prelude.{Bool, ◌≡◌};
ghost use Rattle.il_machine.specs.World.{World};
ghost use Rattle.act_text.specs.declared.act.TextAct.TheVariants as lines;
ghost use Rattle.audit_forms.specs.Audited.{Case};
ghost use Rattle.run_audit.specs.Leading.{IsQuietLine, Leads, MayCome, StandsIn};
ghost use Rattle.run_audit.specs.Seeing.{replay_sight};

use crate::answering::{Answered, answer};
use crate::keeping::{keep_client, keep_work, let_go, take_at};
use crate::replay::{Passed, Replay};
use crate::returning::{Back, bring_back, give_back};
use act_text::{ActText, Name, TextAct, TextReply};
use audit_acts::{is_same_reply, player_of};
use note_queues::Client;
use omx_types::AuditWhy;
use outside_io::Source;

impl<S: Source, C: Client> Replay<S, C> {
    /// Makes an act that hands nothing out.
    fn ask(&mut self, said: &ActText) -> Passed
        requires quiet { IsQuietLine (said.now).act }
        requires stands { (tells : Bool) × (x : Case) × (w : World) × StandsIn (replay_sight C.Client S.Source) tells self.old x w }
        ensures { Leads (replay_sight C.Client S.Source) self.old self.new said.now result }
    {
        self.served.graph.law_of_worlds();
        let parts = self.plan.parts();
        let handles = self.handles.as_slice();
        let answered = answer(&mut self.served, parts, handles, said);
        self.served.graph.law_of_worlds();
        match answered {
            Answered::Unknown => Passed::Stop(AuditWhy::OtherReply),
            Answered::Same(reply) => {
                let_go(reply);
                Passed::On
            }
            Answered::Other(reply) => {
                let_go(reply);
                Passed::Stop(AuditWhy::OtherReply)
            }
        }
    }

    /// Claims, and keeps the work.
    fn claim(&mut self, name: &Name, said: &ActText) -> Passed
        requires line { (said.now).act ≡ lines.Claim name.now }
        requires stands { (tells : Bool) × (x : Case) × (w : World) × StandsIn (replay_sight C.Client S.Source) tells self.old x w }
        ensures { Leads (replay_sight C.Client S.Source) self.old self.new said.now result }
    {
        let parts = self.plan.parts();
        let handles = self.handles.as_slice();
        let Some(player) = player_of(parts, handles, name) else {
            return Passed::Stop(AuditWhy::OtherReply);
        };
        self.served.graph.law_of_worlds();
        let answered = answer(&mut self.served, parts, handles, said);
        self.served.graph.law_of_worlds();
        match answered {
            Answered::Unknown => Passed::Stop(AuditWhy::OtherReply),
            Answered::Same(reply) => {
                keep_work(self.works.as_mut_slice(), player.place, reply);
                Passed::On
            }
            Answered::Other(reply) => {
                keep_work(self.works.as_mut_slice(), player.place, reply);
                Passed::Stop(AuditWhy::OtherReply)
            }
        }
    }

    /// Takes a note, and keeps the client object that comes with it.
    fn take(&mut self, name: &Name, said: &ActText) -> Passed
        requires line { (said.now).act ≡ lines.Take name.now }
        requires stands { (tells : Bool) × (x : Case) × (w : World) × StandsIn (replay_sight C.Client S.Source) tells self.old x w }
        ensures { Leads (replay_sight C.Client S.Source) self.old self.new said.now result }
    {
        let parts = self.plan.parts();
        let handles = self.handles.as_slice();
        let Some(player) = player_of(parts, handles, name) else {
            return Passed::Stop(AuditWhy::OtherReply);
        };
        self.served.graph.law_of_worlds();
        let answered = answer(&mut self.served, parts, handles, said);
        self.served.graph.law_of_worlds();
        match answered {
            Answered::Unknown => Passed::Stop(AuditWhy::OtherReply),
            Answered::Same(reply) => {
                keep_client(self.clients.as_mut_slice(), player.place, reply);
                Passed::On
            }
            Answered::Other(reply) => {
                keep_client(self.clients.as_mut_slice(), player.place, reply);
                Passed::Stop(AuditWhy::OtherReply)
            }
        }
    }

    /// Brings the component's work back.
    fn finish(&mut self, name: &Name, said: &ActText) -> Passed
        requires line { (said.now).act ≡ lines.Finish name.now }
        requires stands { (tells : Bool) × (x : Case) × (w : World) × StandsIn (replay_sight C.Client S.Source) tells self.old x w }
        ensures { Leads (replay_sight C.Client S.Source) self.old self.new said.now result }
    {
        let parts = self.plan.parts();
        let Some(player) = player_of(parts, self.handles.as_slice(), name) else {
            return Passed::Stop(AuditWhy::NotOut);
        };
        let Some(work) = take_at(self.works.as_mut_slice(), player.place) else {
            return Passed::Stop(AuditWhy::NotOut);
        };
        self.served.graph.law_of_worlds();
        let back = bring_back(&mut self.served, work, &said.reply);
        self.served.graph.law_of_worlds();
        match back {
            Back::Same => Passed::On,
            Back::OtherFile => Passed::Stop(AuditWhy::OtherFile),
            Back::Other => Passed::Stop(AuditWhy::OtherReply),
            Back::Failed(fault) => Passed::Failed {
                component: player.place,
                fault,
            },
        }
    }

    /// Gives the component's client object back.
    fn end(&mut self, name: &Name, said: &ActText) -> Passed
        requires line { (said.now).act ≡ lines.End name.now }
        requires stands { (tells : Bool) × (x : Case) × (w : World) × StandsIn (replay_sight C.Client S.Source) tells self.old x w }
        ensures { Leads (replay_sight C.Client S.Source) self.old self.new said.now result }
    {
        let parts = self.plan.parts();
        let Some(player) = player_of(parts, self.handles.as_slice(), name) else {
            return Passed::Stop(AuditWhy::NotOut);
        };
        let Some(client) = take_at(self.clients.as_mut_slice(), player.place) else {
            return Passed::Stop(AuditWhy::NotOut);
        };
        self.served.graph.law_of_worlds();
        give_back(&mut self.served, player.handle, client);
        self.served.graph.law_of_worlds();
        if is_same_reply(TextReply::Done, &said.reply) {
            Passed::On
        } else {
            Passed::Stop(AuditWhy::OtherReply)
        }
    }

    /// Makes the act of a line that may come.
    pub(crate) fn act(&mut self, said: &ActText) -> Passed
        requires may { MayCome (said.now).act }
        requires stands { (tells : Bool) × (x : Case) × (w : World) × StandsIn (replay_sight C.Client S.Source) tells self.old x w }
        ensures { Leads (replay_sight C.Client S.Source) self.old self.new said.now result }
    {
        match &said.act {
            TextAct::Claim(name) => self.claim(name, said),
            TextAct::Take(name) => self.take(name, said),
            TextAct::Finish(name) => self.finish(name, said),
            TextAct::End(name) => self.end(name, said),
            _ => self.ask(said),
        }
    }
}
