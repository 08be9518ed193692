//! What a part shows, stated on a function that does nothing.
ghost use Rattle.std.specs.Prelude.{◌≡◌};
ghost use Rattle.audio_parts.specs.Shown.{shown_by};

use audio_parts::AnyPart;
use outside_io::{Sink, Source};
use part_api::Part;

/// What is shown of a part is what its members tell.
pub(crate) fn law_of_parts<S: Source, K: Sink>()
    ensures terms { (part : _) → ⟦<AnyPart<S, K> as Part>⟧.terms part ≡ (shown_by S.told K.told K.name part).terms }
    ensures failed { (part : _) → ⟦<AnyPart<S, K> as Part>⟧.failed part ≡ (shown_by S.told K.told K.name part).failed }
    ensures left { (part : _) → ⟦<AnyPart<S, K> as Part>⟧.left part ≡ (shown_by S.told K.told K.name part).left }
    ensures rest { (part : _) → ⟦<AnyPart<S, K> as Part>⟧.rest part ≡ (shown_by S.told K.told K.name part).rest }
    ensures kept { (part : _) → ⟦<AnyPart<S, K> as Part>⟧.kept part ≡ (shown_by S.told K.told K.name part).kept }
    ensures writing { (part : _) → ⟦<AnyPart<S, K> as Part>⟧.writing part ≡ (shown_by S.told K.told K.name part).writing }
{}
