//! A replay is left before its end.

ghost use Rattle.std.specs.Prelude.{◌≡◌, ◌<◌, ◌≤◌, ℕ, Bool, length, slice_get, Some, None, true};
ghost use Rattle.il_machine.specs.World.{World};
ghost use Rattle.act_text.specs.declared.act.TextAct.TheVariants as lines;
ghost use Rattle.audit_forms.specs.Audited.{Case, Moment};
ghost use Rattle.audit_order.specs.Asked.{change_act};
ghost use Rattle.audit_order.specs.Ends.{link_at};
ghost use Rattle.play_build_laws.specs.Dismantling.{AreLinks};
ghost use Rattle.play_graph.specs.Ending.{AreFilesOf, StandsFor};
ghost use Rattle.play_graph.specs.Making.{AreGone};
ghost use Rattle.play_graph.specs.Stops.{HasStopped};
ghost use Rattle.play_plan_laws.specs.Endings.{ends_of};
ghost use Rattle.run_audit.specs.Opening.{play_sight};
ghost use Rattle.run_audit.specs.Ending.{HasCome};
ghost use Rattle.run_audit.specs.Files.{FileGoesOn, FilesGoOn, file_at};
ghost use Rattle.run_audit.specs.Leading.{MayCome, StandsIn};
ghost use Rattle.run_audit.specs.Leaving.{AreTried, HasThen, IsTried, rejoining};
ghost use Rattle.run_audit.specs.Walking.{IsLeft};

use crate::ending::let_go_places;
use crate::replay::Replay;
use act_text::{ActText, PortName, TextAct, TextReply};
use audio_parts::PartFile;
use audit_order::LinkEnds;
use compared_files::Comparing;
use conductor::PlayClient;
use graph_acts::Served;
use outside_io::Source;
use play_graph::stop_graph;
use stream_plan::Plan;

/// Sets a port of the link.
fn set_port(ends: &LinkEnds, port: PortName) -> TextAct
    ensures { result ≡ lines.SetPort port ends.now.format ends.now.count ends.now.size }
{
    TextAct::SetPort {
        port,
        format: ends.format,
        count: ends.count,
        size: ends.size,
    }
}

impl<S: Source> Replay<S, PlayClient> {
    /// Makes the act if it comes next.
    fn try_act(&mut self, act: TextAct)
        requires may { MayCome act }
        requires few { length self.old.plan.parts ≤ 32 }
        requires stands { (tells : Bool) × (x : Case) × (w : World) × StandsIn (play_sight S.Source) tells self.old x w }
        ensures tried { (tells : Bool) (x : Case) (w : World) → StandsIn (play_sight S.Source) tells self.old x w
            → (v : World) × StandsIn (play_sight S.Source) tells self.new x v
            × IsTried self.old.plan self.old.told.items x act self.old.order w self.new.order v }
        ensures files { FilesGoOn (play_sight S.Source) true self.old self.new }
        ensures plan { self.new.plan ≡ self.old.plan }
        ensures told { self.new.told ≡ self.old.told }
        ensures handles { self.new.handles ≡ self.old.handles }
    {
        if self.admits(&act) {
            let said = ActText {
                act,
                reply: TextReply::Done,
            };
            let _passed = self.act(&said);
        }
    }

    /// Sets the tunnel of the link up again, if that is down.
    fn rejoin(&mut self, link: usize)
        requires few { length self.old.plan.parts ≤ 32 }
        requires stands { (tells : Bool) × (x : Case) × (w : World) × StandsIn (play_sight S.Source) tells self.old x w }
        ensures tried { (tells : Bool) (x : Case) (w : World) → StandsIn (play_sight S.Source) tells self.old x w
            → (v : World) × StandsIn (play_sight S.Source) tells self.new x v
            × AreTried self.old.plan self.old.told.items x (rejoining (link_at self.old.plan.parts (slice_get self.old.plan.joints link) (slice_get self.old.plan.flows link)))
            self.old.order w self.new.order v }
        ensures files { FilesGoOn (play_sight S.Source) true self.old self.new }
        ensures plan { self.new.plan ≡ self.old.plan }
        ensures told { self.new.told ≡ self.old.told }
        ensures handles { self.new.handles ≡ self.old.handles }
    {
        let Some(ends) = LinkEnds::at(&self.plan, link) else {
            return;
        };
        self.try_act(set_port(&ends, ends.output));
        self.try_act(set_port(&ends, ends.input));
        self.try_act(TextAct::Tunnel {
            first: ends.output,
            second: ends.input,
        });
    }

    /// Stops the graph, of which all is back.
    fn stop(self, files: &mut [Option<PartFile<S, Comparing<S>>>])
        requires parts { length self.plan.parts ≤ 32 }
        requires joints { length self.plan.joints ≤ 1024 }
        requires many { length files.old ≡ length self.plan.parts }
        requires gone { AreGone (length self.plan.parts) files.old }
        requires links { AreLinks (ends_of self.plan) (length self.plan.joints) }
        requires stands { StandsFor (HasStopped self.plan 0) self.served.graph }
        requires works { (place : ℕ) → place < length self.works.items → slice_get self.works.items place ≡ Some None }
        ensures many { length files.new ≡ length files.old }
        ensures files { AreFilesOf self.served.graph (length self.plan.parts) files.new }
    {
        let Replay {
            served,
            plan,
            handles: _,
            works,
            clients: _,
            told: _,
            order: _,
        } = self;
        let Served { graph, alloc: _ } = served;
        let_go_places(works);
        stop_graph(graph, &plan, files);
    }

    /// Brings all back that is out, and stops the graph. Each file comes to the place of its component.
    pub(crate) fn leave(mut self, files: &mut [Option<PartFile<S, Comparing<S>>>])
        requires left { (tells : Bool) × (x : Case) × (now : Moment) × HasCome x now × IsLeft (play_sight S.Source) tells self x now }
        requires many { length files.old ≡ length self.plan.parts }
        requires gone { AreGone (length self.plan.parts) files.old }
        ensures many { length files.new ≡ length files.old }
        ensures files { (place : ℕ) → place < length self.plan.parts → HasThen (λ file. FileGoesOn (play_sight S.Source) true
            (file_at (play_sight S.Source) self place) file) files.new place }
    {
        for link in 0..self.plan.joints().len() {
            self.rejoin(link);
        }
        self.settle();
        self.served.graph.law_of_worlds();
        self.stop(files);
    }
}
