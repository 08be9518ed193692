//! What holds of parts, their terms, a sink's file and a mixer's sum, stated on functions that do nothing.

ghost use Rattle.std.specs.Prelude.{◌≡◌, ℕ, ◌*◌, ◌≤◌, List, ◌++◌, length, take, Option, Some};
ghost use Rattle.std.specs.List.{AllByRecursion};
ghost use Rattle.omx_types.specs.declared.format.Format.{Format};
ghost use Rattle.omx_types.specs.declared.kind.Kind.{Kind};
ghost use Rattle.omx_types.specs.Formats.{IsWithinLimits, frame_bytes_of};
ghost use Rattle.part_forms.specs.Writing.{written};
ghost use Rattle.part_api.specs.Streams.{Incoming};
ghost use Rattle.part_api.specs.declared.attached.Attached.{Attached};
ghost use Rattle.part_api.specs.Terms.{Terms, Writing};
ghost use Rattle.audio_parts.specs.AnyParts.{file_of};
ghost use Rattle.audio_parts.specs.Shown.{shown_by};
ghost use Rattle.audio_parts.specs.Kinds.{MayHave, default_terms, with_factor, with_file, with_format};
ghost use Rattle.part_forms.specs.Mixing.{Reach, mixed_bytes, with_zeros};
ghost use Rattle.audio_parts.specs.Ready.{AreFitting};
ghost use Rattle.audio_parts.specs.Shapes.{HasFramesOf, IsLawful};
ghost use Rattle.part_forms.specs.Shapes.{shape_of};
ghost use Rattle.part_forms.specs.Sinking.{fresh, writes_of};
ghost use Rattle.audio_parts.specs.WholeFiles.{IsUnwritten, IsOfWholeFrames, Piece, WroteAll, bytes_in, frames_in, text_of};

use crate::any_part::AnyPart;
use outside_io::{Sink, Source};
use part_api::Part;

/// What a part does is told by what its owner set. The call does nothing.
pub fn shape_by_terms<S: Source, K: Sink>(part: &AnyPart<S, K>)
    ensures { ⟦<AnyPart<S, K> as Part>⟧.shape part.now ≡ shape_of (⟦<AnyPart<S, K> as Part>⟧.terms part.now) }
{
    match part {
        AnyPart::Source(_) => {}
        AnyPart::Decoder(_) => {}
        AnyPart::Encoder(_) => {}
        AnyPart::Gain(_) => {}
        AnyPart::Mixer(_) => {}
        AnyPart::Splitter(_) => {}
        AnyPart::Sink(_) => {}
    }
}

/// What is shown of a part is what its members tell. The call does nothing.
pub fn law_of_shown<S: Source, K: Sink>(part: &AnyPart<S, K>)
    ensures terms { (shown_by S.told K.told K.name part.now).terms ≡ ⟦<AnyPart<S, K> as Part>⟧.terms part.now }
    ensures failed { (shown_by S.told K.told K.name part.now).failed ≡ ⟦<AnyPart<S, K> as Part>⟧.failed part.now }
    ensures left { (shown_by S.told K.told K.name part.now).left ≡ ⟦<AnyPart<S, K> as Part>⟧.left part.now }
    ensures rest { (shown_by S.told K.told K.name part.now).rest ≡ ⟦<AnyPart<S, K> as Part>⟧.rest part.now }
    ensures kept { (shown_by S.told K.told K.name part.now).kept ≡ ⟦<AnyPart<S, K> as Part>⟧.kept part.now }
    ensures writing { (shown_by S.told K.told K.name part.now).writing ≡ ⟦<AnyPart<S, K> as Part>⟧.writing part.now }
    ensures file { (shown_by S.told K.told K.name part.now).file ≡ file_of part.now }
{
    match part {
        AnyPart::Source(_) => {}
        AnyPart::Decoder(_) => {}
        AnyPart::Encoder(_) => {}
        AnyPart::Gain(_) => {}
        AnyPart::Mixer(_) => {}
        AnyPart::Splitter(_) => {}
        AnyPart::Sink(_) => {}
    }
}

/// A new part's terms are lawful, and each that may be set keeps them so. The call does nothing.
pub fn lawful_terms()
    ensures new { (kind : Kind) → IsLawful (default_terms kind) }
    ensures format { (terms : Terms) (port : ℕ) (format : Format) → IsLawful terms → MayHave terms port format → IsLawful (with_format terms port format) }
    ensures factor { (terms : Terms) (input factor : ℕ) → IsLawful terms → IsLawful (with_factor terms input factor) }
    ensures file { (terms : Terms) (file : Option Attached) → IsLawful terms → IsLawful (with_file terms file) }
{}

/// Where lawful formats fit, the frames of each port are those of its format. The call does nothing.
pub fn frames_by_format()
    ensures { (terms : Terms) → IsLawful terms → AreFitting terms.kind (terms.inputs ++ terms.outputs) → HasFramesOf terms.inputs terms.outputs (shape_of terms) }
{}

/// What a part writes in a step is told by how far its writing has come. The call does nothing.
pub fn writes_by_writing<S: Source, K: Sink>(part: &AnyPart<S, K>)
    ensures { (incoming : Incoming) → ⟦<AnyPart<S, K> as Part>⟧.writes part.now incoming ≡ writes_of (⟦<AnyPart<S, K> as Part>⟧.writing part.now) (incoming.input 0) }
{}

/// However frames are cut into steps, what these write of a new file is the head, once, the frames up to the planned
/// number, and one zero byte behind the last where their bytes are odd. As soon as all planned frames were given, that is
/// the one file of these. The call does nothing.
pub fn law_of_writing()
    ensures new { (name : List ℕ) (format : Format) (planned : ℕ) → IsUnwritten (fresh name format planned) }
    ensures text { (before : Writing) (after : Option Writing) (pieces : List Piece) (text : List ℕ) → IsUnwritten before
        → AllByRecursion (IsOfWholeFrames before.format) pieces → WroteAll (Some before) pieces text after
        → text ≡ text_of before.format before.planned pieces }
    ensures whole { (before : Writing) (after : Option Writing) (pieces : List Piece) (text : List ℕ) → IsUnwritten before
        → AllByRecursion (IsOfWholeFrames before.format) pieces → WroteAll (Some before) pieces text after
        → IsWithinLimits before.format → 1 ≤ length pieces → before.planned ≤ frames_in pieces
        → text ≡ written before.format (take (before.planned * frame_bytes_of before.format) (bytes_in pieces)) }
{}

/// A mixer's plain function of inputs of different lengths is that of the inputs with zeros behind them, by which all have
/// one size, and an input that has it without. Of whole samples it gives so many bytes. The call does nothing.
pub fn law_of_padding()
    ensures same { (weights : List ℕ) (size : ℕ) (zeros : ℕ → ℕ) (input : ℕ → List ℕ) → Reach weights size zeros input
        → mixed_bytes weights (with_zeros zeros input) ≡ mixed_bytes weights input }
    ensures long { (weights : List ℕ) (count : ℕ) (zeros : ℕ → ℕ) (input : ℕ → List ℕ) → Reach weights (count * 2) zeros input
        → length (mixed_bytes weights input) ≡ count * 2 }
{}
