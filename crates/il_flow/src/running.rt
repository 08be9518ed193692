//! What a work needs for its step.
ghost use Rattle.std.specs.Prelude.{◌≡◌, ◌+◌, ◌*◌, ◌≤◌, ℕ, length, IfSome, is_some};
ghost use Rattle.audio_parts.specs.Shapes.{IsLawful};
ghost use Rattle.header_core.specs.BufferHeader.{IsSized};
ghost use Rattle.il_flow.specs.Layouts.{IsLaidOut, ports_of};
ghost use Rattle.il_flow.specs.Places.{AreSame, AreWithin, EachFrom, Offer, carried_from};
ghost use Rattle.il_flow.specs.Sound.{HaveOutputs};
ghost use Rattle.il_flow.specs.Steps.{frames_by, shown};
ghost use Rattle.il_flow.specs.Works.{ComesBack};

use crate::frames::{is_over, step_frames};
use crate::layout::Layout;
use crate::parts::step_part;
use audio_parts::{KindPart, frames_by_format};
use header_core::Header;
use part_api::PartFault;

/// The layout of a part whose formats fit.
pub(crate) fn layout_of<P: KindPart>(part: &P) -> Layout
    requires lawful { IsLawful (P.terms part.now) }
    requires fits { P.is_ready part.now }
    ensures { IsLaidOut result (P.terms part.now) (P.shape part.now) }
{
    part.is_by_terms();
    frames_by_format();
    Layout {
        inputs: part.inputs(),
        input_frame: part.input_frame().max(1),
        output_frame: part.output_frame().max(1),
    }
}

/// The frames of the step.
pub(crate) fn frames_for<P: KindPart>(
    part: &P,
    left: Option<u64>,
    layout: Layout,
    places: &[Option<Header>],
) -> u32
    requires left { left ≡ P.left part.now }
    requires lawful { IsLawful (P.terms part.now) }
    requires layout { IsLaidOut layout (P.terms part.now) (P.shape part.now) }
    requires count { length places.now ≤ 9 }
    requires within { AreWithin (ports_of (P.terms part.now)) 0 places.now }
    requires sized { EachFrom (λ port h. IsSized h) 0 places.now }
    requires outputs { HaveOutputs (P.terms part.now) places.now }
    ensures value { result ≡ frames_by left (P.terms part.now) (carried_from 0 places.now) }
    ensures few { result * (P.shape part.now).channels ≤ 4096 }
    ensures there { IfSome left (λ there. result ≤ there) }
    ensures enough { Offer (P.terms part.now) result 0 places.now }
{
    // The proof learns from it that a source has frames left to tell of, and no other part.
    let _ = part.frames_left();
    step_frames(left, layout, places) as u32
}

/// What a step came to.
pub(crate) struct Stepped {
    pub(crate) frames: u32,
    pub(crate) fault: Option<PartFault>,
}

/// Does the step.
pub(crate) fn do_step<P: KindPart>(part: &mut P, places: &mut [Option<Header>]) -> Stepped
    requires lawful { IsLawful (P.terms part.old) }
    requires fits { P.is_ready part.old }
    requires count { length places.old ≤ 9 }
    requires within { AreWithin (ports_of (P.terms part.old)) 0 places.old }
    requires sized { EachFrom (λ port h. IsSized h) 0 places.old }
    requires outputs { HaveOutputs (P.terms part.old) places.old }
    ensures terms { P.terms part.new ≡ P.terms part.old }
    ensures failed { P.failed part.new ≡ is_some result.fault }
    ensures within { AreWithin (ports_of (P.terms part.old)) 0 places.new }
    ensures same { AreSame places.old places.new }
    ensures step { (component : ℕ) → ComesBack (P.terms part.old) (carried_from 0 places.old) (shown (P.left part.old) (P.rest part.old) (P.kept part.old) (P.writing part.old))
        component result.frames result.fault (carried_from 0 places.new) (shown (P.left part.new) (P.rest part.new) (P.kept part.new) (P.writing part.new)) }
    ensures cause { IfSome result.fault (P.has_cause part.old part.new) }
    ensures object { P.keeps part.old part.new }
    ensures shows { IfSome result.fault (P.shows part.old part.new) }
{
    part.is_by_terms();
    let layout = layout_of(part);
    let left = part.frames_left();
    let frames = frames_for(part, left, layout, places);
    let over = is_over(left, layout, u64::from(frames), places);
    match step_part(part, places, layout, frames, over) {
        Some(fault) => Stepped {
            frames: 0,
            fault: Some(fault),
        },
        None => {
            part.is_by_terms();
            Stepped {
                frames,
                fault: None,
            }
        }
    }
}
