//! All that is out of the graph goes back.

ghost use Rattle.std.specs.Prelude.{Bool, ◌≡◌, ◌<◌, ℕ, length, slice_get, slice_set, true, Some, None};
ghost use Rattle.il_machine.specs.World.{World};
ghost use Rattle.audit_forms.specs.Audited.{Case};
ghost use Rattle.run_audit.specs.Files.{FilesGoOn};
ghost use Rattle.run_audit.specs.Leading.{StandsIn};
ghost use Rattle.run_audit.specs.Settling.{IsSettled};
ghost use Rattle.run_audit.specs.Seeing.{replay_sight};

use crate::keeping::take_at;
use crate::replay::Replay;
use crate::returning::{bring_back, give_back};
use act_text::TextReply;
use note_queues::Client;
use outside_io::Source;

impl<S: Source, C: Client> Replay<S, C> {
    /// Brings the work of the component at the place back, if that is out. What its step comes to isn't told.
    fn settle_work(&mut self, place: usize)
        requires there { place < length self.old.works.items }
        requires stands { (tells : Bool) × (x : Case) × (w : World) × StandsIn (replay_sight C.Client S.Source) tells self.old x w }
        ensures stands { (tells : Bool) (x : Case) (w : World) → StandsIn (replay_sight C.Client S.Source) tells self.old x w
            → (v : World) × StandsIn (replay_sight C.Client S.Source) tells self.new x v × IsSettled x w v }
        ensures works { self.new.works.items ≡ slice_set self.old.works.items place None }
        ensures clients { self.new.clients ≡ self.old.clients }
        ensures files { FilesGoOn (replay_sight C.Client S.Source) true self.old self.new }
        ensures plan { self.new.plan ≡ self.old.plan }
        ensures handles { self.new.handles ≡ self.old.handles }
        ensures order { self.new.order ≡ self.old.order }
    {
        let Some(work) = take_at(self.works.as_mut_slice(), place) else {
            return;
        };
        self.served.graph.law_of_worlds();
        let _back = bring_back(&mut self.served, work, &TextReply::Done);
        self.served.graph.law_of_worlds();
    }

    /// Gives the client object of the component at the place back, if that is out.
    fn settle_client(&mut self, place: usize)
        requires there { place < length self.old.clients.items }
        requires stands { (tells : Bool) × (x : Case) × (w : World) × StandsIn (replay_sight C.Client S.Source) tells self.old x w }
        ensures stands { (tells : Bool) (x : Case) (w : World) → StandsIn (replay_sight C.Client S.Source) tells self.old x w
            → (v : World) × StandsIn (replay_sight C.Client S.Source) tells self.new x v × IsSettled x w v }
        ensures clients { self.new.clients.items ≡ slice_set self.old.clients.items place None }
        ensures works { self.new.works ≡ self.old.works }
        ensures files { FilesGoOn (replay_sight C.Client S.Source) true self.old self.new }
        ensures plan { self.new.plan ≡ self.old.plan }
        ensures handles { self.new.handles ≡ self.old.handles }
        ensures order { self.new.order ≡ self.old.order }
    {
        let h = self.handles[place];
        let Some(client) = take_at(self.clients.as_mut_slice(), place) else {
            return;
        };
        self.served.graph.law_of_worlds();
        give_back(&mut self.served, h, client);
        self.served.graph.law_of_worlds();
    }

    /// Brings every work and every client object back.
    pub fn settle(&mut self)
        requires { (tells : Bool) × (x : Case) × (w : World) × StandsIn (replay_sight C.Client S.Source) tells self.old x w }
        ensures stands { (tells : Bool) (x : Case) (w : World) → StandsIn (replay_sight C.Client S.Source) tells self.old x w
            → (v : World) × StandsIn (replay_sight C.Client S.Source) tells self.new x v × IsSettled x w v }
        ensures works { (place : ℕ) → place < length self.old.plan.parts → slice_get self.new.works.items place ≡ Some None }
        ensures clients { (place : ℕ) → place < length self.old.plan.parts → slice_get self.new.clients.items place ≡ Some None }
        ensures files { FilesGoOn (replay_sight C.Client S.Source) true self.old self.new }
        ensures plan { self.new.plan ≡ self.old.plan }
        ensures handles { self.new.handles ≡ self.old.handles }
        ensures order { self.new.order ≡ self.old.order }
    {
        for place in 0..self.plan.parts().len() {
            self.settle_work(place);
            self.settle_client(place);
        }
    }
}
