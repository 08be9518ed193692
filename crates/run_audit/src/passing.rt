//! A line is read, and passes each test or stops at one.

ghost use Rattle.std.specs.Prelude.{Bool, ◌≡◌, ◌≤◌, length, true, false};
ghost use Rattle.il_machine.specs.World.{World};
ghost use Rattle.audit_forms.specs.Audited.{Case, ComesNext, Moment};
ghost use Rattle.audit_order.specs.Asked.{is_asked};
ghost use Rattle.audit_order.specs.Steps.{OrderValue};
ghost use Rattle.run_audit.specs.Files.{FilesGoOn};
ghost use Rattle.run_audit.specs.Leading.{IsLinePassed, IsSinceMoment, ShowsIts, StandsIn, has_failed};
ghost use Rattle.run_audit.specs.Replaying.{IsReplay};
ghost use Rattle.run_audit.specs.Seeing.{replay_sight};

use crate::replay::{Passed, Replay};
use crate::telling::tell;
use act_text::TextAct;
use audit_lines::read_line;
use note_queues::Client;
use omx_types::AuditWhy;
use outside_io::Source;

/// Whether the client of a play asks for the act: acts of components, deliveries and steps need no asking.
fn is_asked(act: &TextAct) -> bool
    ensures { result ≡ is_asked act.now }
{
    match act {
        TextAct::Run(_) | TextAct::Claim(_) | TextAct::Finish(_) => false,
        TextAct::Supply(_) | TextAct::Release(_) | TextAct::Over(_) | TextAct::Back(_) => false,
        TextAct::Take(_) | TextAct::End(_) => false,
        _ => true,
    }
}

impl<S: Source, C: Client> Replay<S, C> {
    /// Whether the act may come next. If it is asked for, it then was.
    pub(crate) fn admits(&mut self, act: &TextAct) -> bool
        requires { length self.old.plan.parts ≤ 32 }
        ensures yes { result ≡ true → ComesNext self.old.plan self.old.told.items self.old.order act.now self.new.order }
        ensures no { result ≡ false → (next : OrderValue) → ComesNext self.old.plan self.old.told.items self.old.order act.now next → ⊥ }
        ensures still { result ≡ false → self.new.order ≡ self.old.order }
        ensures rest { self.new ≡ record self.old { order = self.new.order } }
    {
        if !is_asked(act) {
            return true;
        }
        self.order.admit(&self.plan, self.told.as_slice(), act)
    }

    /// Goes on by one line, of that number.
    pub fn line(&mut self, number: u64, piece: &[u8]) -> Passed
        requires { (tells : Bool) × (x : Case) × (at : Moment) × IsReplay (replay_sight C.Client S.Source) tells self.old x at }
        ensures passed { (tells : Bool) (x : Case) (at : Moment) → IsReplay (replay_sight C.Client S.Source) tells self.old x at
            → IsLinePassed (replay_sight C.Client S.Source) tells self.new x number at piece.now result }
        ensures stands { (tells : Bool) (x : Case) (at : Moment) → IsReplay (replay_sight C.Client S.Source) tells self.old x at
            → (v : World) × StandsIn (replay_sight C.Client S.Source) tells self.new x v × IsSinceMoment self.new.order x at v }
        ensures files { FilesGoOn (replay_sight C.Client S.Source) (has_failed result) self.old self.new }
        ensures shows { ShowsIts (replay_sight C.Client S.Source) result self.old self.new }
        ensures plan { self.new.plan ≡ self.old.plan }
        ensures handles { self.new.handles ≡ self.old.handles }
    {
        let Some(line) = read_line(piece, number) else {
            return Passed::Stop(AuditWhy::BadLine);
        };
        if !self.admits(&line.said.act) {
            return Passed::Stop(AuditWhy::OtherAct);
        }
        match self.act(&line.said) {
            Passed::On => {
                tell(self.plan.parts(), &line.said, self.told.as_mut_slice());
                Passed::On
            }
            stopped => stopped,
        }
    }
}
