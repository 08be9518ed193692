//! What the steps of a part with a file come to, one after another.
ghost use Rattle.std.specs.Prelude.{◌≡◌, ℕ, ◌*◌, ◌≤◌, List, ◌++◌, length, take, drop, Option, Some};
ghost use Rattle.std.specs.Io.KnownBytes.{append_known};
ghost use Rattle.std.specs.List.{AllByRecursion};
ghost use Rattle.omx_types.specs.declared.format.Format.{Format};
ghost use Rattle.omx_types.specs.Formats.{IsWithinLimits, frame_bytes_of};
ghost use Rattle.outside_io.specs.Moves.{WhereTold};
ghost use Rattle.part_api.specs.Terms.{Writing};
ghost use Rattle.part_forms.specs.Writing.{written};
ghost use Rattle.audio_parts.specs.WholeFiles.{IsUnwritten, IsOfWholeFrames, KeptAll, Piece, bytes_in, frames_in};
ghost use Rattle.audio_parts.specs.WholeReads.{ReadAll, Remaining, unread};

/// However frames are cut into steps, what these read of a source's file is, joined, the front of what it gives; as soon as
/// no frame is left, it is all frames for which the file came. The call does nothing.
pub fn law_of_reading()
    ensures joined { (before after : Remaining) (pieces : List Piece) → ReadAll before pieces after
        → WhereTold before.rest (λ all. (rest : List ℕ) × (after.rest ≡ Some rest) × (all ≡ bytes_in pieces ++ rest)) }
    ensures whole { (told : Option (List ℕ)) (offset frames : ℕ) (format : Format) (pieces : List Piece) (after : Remaining)
        → AllByRecursion (IsOfWholeFrames format) pieces → ReadAll (unread told offset format frames) pieces after → after.left ≡ 0
        → WhereTold told (λ bytes. bytes_in pieces ≡ take (frames * frame_bytes_of format) (drop offset bytes)) }
{}

/// As soon as all planned frames were given, a sink's file has kept the one file of these behind what it had. The call
/// does nothing.
pub fn law_of_keeping()
    ensures { (before : Writing) (after : Option Writing) (old new : Option (List ℕ)) (pieces : List Piece) → IsUnwritten before
        → AllByRecursion (IsOfWholeFrames before.format) pieces → KeptAll (Some before) old pieces after new
        → IsWithinLimits before.format → 1 ≤ length pieces → before.planned ≤ frames_in pieces
        → new ≡ append_known old (written before.format (take (before.planned * frame_bytes_of before.format) (bytes_in pieces))) }
{}
