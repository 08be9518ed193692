//! A work whose step was done, and what it brings back.

ghost use Rattle.std.specs.Prelude.{◌≡◌, true, false, Some, None};
ghost use Rattle.audio_parts.specs.Shapes.{IsLawful};
ghost use Rattle.work_landing.specs.Places.{AreFree};

use crate::seat::Desk;
use omx_types::Handle;
use part_api::{Part, PartFault};
use std::marker::Model;

/// A work whose step was done. It is spent by `into_parts`.
pub struct Done<P: Part> {
    pub(crate) component: Handle,
    pub(crate) desk: Box<Desk<P>>,
    pub(crate) frames: u32,
    pub(crate) fault: Option<PartFault>,
    pub(crate) announces: bool,
}

impl<P: Part> Model for Done<P> {
    ghost use Rattle.il_flow.specs.Sound.{IsReturned};
    ghost use Rattle.il_flow.specs.Works.{DoneOf};

    ghost Value = { DoneOf P };

    ghost view = { λ d. record { component = d.component; part = d.desk.value.part; headers = d.desk.value.headers; frames = d.frames; fault = d.fault; announces = d.announces } };

    ghost invariant = { λ d. IsReturned (P.terms d.desk.value.part) d.desk.value.headers d.announces };
}

/// What a step came to: its frames, and the fault by which it failed.
#[derive(Clone, Copy)]
pub struct Brought {
    pub frames: u32,
    pub fault: Option<PartFault>,
}

impl<P: Part> Done<P> {
    /// The component whose work it was.
    pub fn component(&self) -> Handle
        ensures { result ≡ self.now.component }
    {
        self.component
    }

    /// The frames of the step.
    pub fn frames(&self) -> u32
        ensures { result ≡ self.now.frames }
    {
        self.frames
    }

    /// The fault by which the step failed.
    pub fn fault(&self) -> Option<PartFault>
        ensures { result ≡ self.now.fault }
    {
        self.fault
    }

    /// The part, which has its file again.
    pub fn part(&self) -> &P
        ensures { result.now ≡ self.now.part }
    {
        &self.desk.part
    }

    /// The part with the headers, and what the step came to; an announcement has no header and did no step.
    pub fn into_parts(self) -> (Box<Desk<P>>, Option<Brought>)
        ensures part { result.0.value.part ≡ self.part }
        ensures headers { result.0.value.headers ≡ self.headers }
        ensures lawful { IsLawful (P.terms self.part) }
        ensures announced { self.announces ≡ true → result.1 ≡ None }
        ensures free { self.announces ≡ true → AreFree self.headers }
        ensures brought { self.announces ≡ false → result.1 ≡ Some (record { frames = self.frames; fault = self.fault }) }
    {
        let Done {
            component: _,
            desk,
            frames,
            fault,
            announces,
        } = self;
        if announces {
            return (desk, None);
        }
        (desk, Some(Brought { frames, fault }))
    }
}
