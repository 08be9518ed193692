//! A work is made of the headers that went out for it.
ghost use Rattle.std.specs.Prelude.{◌≡◌, ℕ, true, false, []};
ghost use Rattle.audio_parts.specs.Shapes.{IsLawful};
ghost use Rattle.header_core.specs.BufferHeader.{IsSized};
ghost use Rattle.il_flow.specs.Layouts.{ports_of};
ghost use Rattle.il_flow.specs.Places.{AreWithin, EachFrom, carried_from};
ghost use Rattle.il_flow.specs.Sound.{HaveOutputs};

use crate::seat::Desk;
use crate::work::Work;
use audio_parts::KindPart;
use header_core::Header;
use omx_types::Handle;

/// Each header has the room of its size. The call does nothing.
fn are_sized(places: &[Option<Header>])
    ensures { (port : ℕ) → EachFrom (λ port h. IsSized h) port places.now }
{
    let [first, rest @ ..] = places else {
        return;
    };
    if let Some(header) = first {
        // The proof learns from it that the header has the room of its size.
        let _ = header.size();
    }
    are_sized(rest);
}

impl<P: KindPart> Work<P> {
    /// The work of a component: its part, and a header of each output and of each input that hasn't ended, by the numbers of their ports. The
    /// work of a source that has to tell that its output has another format than its file has no header.
    pub fn new(component: Handle, desk: Box<Desk<P>>, announces: bool) -> Work<P>
        requires lawful { IsLawful (P.terms desk.value.part) }
        requires within { AreWithin (ports_of (P.terms desk.value.part)) 0 desk.value.headers }
        requires fits { announces ≡ false → P.is_ready desk.value.part }
        requires outputs { announces ≡ false → HaveOutputs (P.terms desk.value.part) desk.value.headers }
        requires none { announces ≡ true → carried_from 0 desk.value.headers ≡ [] }
        ensures component { result.component ≡ component }
        ensures part { result.part ≡ desk.value.part }
        ensures headers { result.headers ≡ desk.value.headers }
        ensures announces { result.announces ≡ announces }
    {
        are_sized(&desk.headers);
        Work {
            component,
            desk,
            announces,
        }
    }
}
