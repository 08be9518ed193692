//! The law that a part's outputs don't depend on how its streams are cut into pieces.

ghost use Rattle.std.specs.Prelude.{◌≡◌, ℕ, List};
ghost use Rattle.std.specs.List.{AllByRecursion};
ghost use Rattle.part_api.specs.Streams.{Incoming};
ghost use Rattle.part_api.specs.Steps.{IsPiece, all_joined, outputs_of};

use crate::part::Part;

/// However whole streams are cut into pieces, the outputs of the pieces, one after another, are those
/// of the plain function of the whole.
pub fn law_of_pieces<P: Part>(part: &P)
    ensures { (pieces : List Incoming) → AllByRecursion (IsPiece (P.shape part.now)) pieces
        → (output : ℕ) → (P.shape part.now).plain (all_joined pieces) output ≡ outputs_of (P.shape part.now) pieces output }
{
    part.joins();
}
