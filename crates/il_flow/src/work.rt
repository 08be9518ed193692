//! A work: a part with the headers for one step, which is run away from the graph.

use crate::done::Done;
use crate::running::{Stepped, do_step};
use crate::seat::Desk;
use audio_parts::KindPart;
use omx_types::Handle;
use part_api::Part;
use std::marker::Model;

/// What one step of a component's part is given. It is spent by `run`.
pub struct Work<P: Part> {
    pub(crate) component: Handle,
    pub(crate) desk: Box<Desk<P>>,
    pub(crate) announces: bool,
}

impl<P: Part> Model for Work<P> {
    ghost use Rattle.il_flow.specs.Works.{WorkOf};
    ghost use Rattle.il_flow.specs.Sound.{IsSound};

    ghost Value = { WorkOf P };

    ghost view = { λ w. record { component = w.component; part = w.desk.value.part; headers = w.desk.value.headers; announces = w.announces } };

    ghost invariant = { λ w. IsSound (P.terms w.desk.value.part) (P.is_ready w.desk.value.part) w.desk.value.headers w.announces };
}

impl<P: KindPart> Work<P> {
    ghost use Rattle.std.specs.Prelude.{◌≡◌, true, false, [], is_some, IfSome};
    ghost use Rattle.il_machine.specs.Stepping.{IsAnnounced};
    ghost use Rattle.il_flow.specs.Places.{AreSame, carried_from};
    ghost use Rattle.il_flow.specs.Steps.{shown};
    ghost use Rattle.il_flow.specs.Works.{ComesBack, seen_done};

    /// The component whose work it is.
    pub fn component(&self) -> Handle
        ensures { result ≡ self.now.component }
    {
        self.component
    }

    /// Does the step on the memory of the headers. An announcement does none.
    pub fn run(self) -> Done<P>
        ensures component { result.component ≡ self.component }
        ensures announces { result.announces ≡ self.announces }
        ensures terms { P.terms result.part ≡ P.terms self.part }
        ensures same { AreSame self.headers result.headers }
        ensures step { self.announces ≡ false → ComesBack (P.terms self.part) (carried_from 0 self.headers) (shown (P.left self.part) (P.rest self.part) (P.kept self.part) (P.writing self.part))
            result.component.generation result.frames result.fault (carried_from 0 result.headers) (shown (P.left result.part) (P.rest result.part) (P.kept result.part) (P.writing result.part)) }
        ensures failed { self.announces ≡ false → P.failed result.part ≡ is_some result.fault }
        ensures announced { self.announces ≡ true → IsAnnounced (seen_done [] result) }
        ensures unstepped { self.announces ≡ true → result.part ≡ self.part }
        ensures cause { IfSome result.fault (P.has_cause self.part result.part) }
        ensures kept { P.keeps self.part result.part }
        ensures shows { IfSome result.fault (P.shows self.part result.part) }
    {
        let Work {
            component,
            mut desk,
            announces,
        } = self;
        if announces {
            return Done {
                component,
                desk,
                frames: 0,
                fault: None,
                announces,
            };
        }
        let at = &mut *desk;
        let Stepped { frames, fault } = do_step(&mut at.part, &mut at.headers);
        Done {
            component,
            desk,
            frames,
            fault,
            announces,
        }
    }
}
