//! A play is played by the loop of `play_loop`.

use crate::failure::Stop;
use crate::playing::Playing;
use outside_io::{Sink, Source};
use play_loop::TakeTurns;

impl<S: Source, K: Sink> TakeTurns for Playing<S, K> {
    ghost use Rattle.audio_parts.specs.ObjectLaws.{object_further, object_itself, shows_earlier};
    ghost use Rattle.audio_parts.specs.Objects.{ObjectShows, ObjectStays};
    ghost use Rattle.play_run.specs.Playing.{IsPlaying, LeadsOn, layout_of};
    ghost use Rattle.play_run.specs.Turning.{BreaksOff};
    ghost use Rattle.play_run.specs.Leading.{breaks_off, leads_on, leads_to_itself};

    type Fault = Stop;

    ghost layout = { λ x. layout_of x.plan };

    ghost Plays = { λ x. IsPlaying x };

    ghost Leads = { λ x y. LeadsOn (ObjectStays S.name S.size S.told S.ends S.offset S.faults K.name K.faults) x y };

    ghost Fails = { λ x y. BreaksOff (ObjectStays S.name S.size S.told S.ends S.offset S.faults K.name K.faults) (ObjectShows S.size S.ends S.offset S.faults K.faults) x y };

    fn components(&self) -> u32 {
        self.count()
    }

    fn links(&self) -> u32 {
        self.link_count()
    }

    fn is_over(&self) -> bool {
        self.have_told_all()
    }

    fn send(&mut self) -> bool {
        self.conduct()
    }

    fn component_turn(&mut self, component: u32) -> Result<bool, Stop> {
        let told = self.tell(component);
        let ran = self.run(component);
        if !self.is_logged() {
            return Err(Stop::OutOfMemory);
        }
        match self.step(component) {
            Ok(stepped) => Ok(told | ran | stepped),
            Err(failure) => Err(Stop::Failed(failure)),
        }
    }

    fn link_turn(&mut self, link: u32) -> bool {
        let supplied = self.supply(link);
        let released = self.release(link);
        let over = self.hand_over(link);
        let back = self.hand_back(link);
        supplied | released | over | back
    }

    ghost leads_to_itself = { λ x. leads_to_itself (ObjectStays S.name S.size S.told S.ends S.offset S.faults K.name K.faults) (ObjectShows S.size S.ends S.offset S.faults K.faults) (object_itself S.name S.size S.told S.ends S.offset S.faults K.name K.faults) x };

    ghost leads_on = { λ x y z. leads_on (ObjectStays S.name S.size S.told S.ends S.offset S.faults K.name K.faults) (ObjectShows S.size S.ends S.offset S.faults K.faults) (object_further S.name S.size S.told S.ends S.offset S.faults K.name K.faults) x y z };

    ghost fails_on = { λ x y z stop. breaks_off (ObjectStays S.name S.size S.told S.ends S.offset S.faults K.name K.faults) (ObjectShows S.size S.ends S.offset S.faults K.faults) (object_further S.name S.size S.told S.ends S.offset S.faults K.name K.faults) (shows_earlier S.name S.size S.told S.ends S.offset S.faults K.name K.faults) x y z stop };
}
