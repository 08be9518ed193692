//! What must hold of compared files, stated on a function that does nothing.

ghost use Rattle.std.specs.Prelude.{◌≡◌, ℕ, List, Option};
ghost use Rattle.compared_files.specs.Comparing.{known_by};

/// By what a comparison is known one file is told from another: while the name of the sink stays, so does its file's name, and what that
/// file tells.
pub fn law_of_known_files()
    ensures names { (name called : List ℕ) (told other : Option (List ℕ)) (ends more : Option ℕ) → known_by name told ends ≡ known_by called other more → name ≡ called }
    ensures bytes { (name called : List ℕ) (told other : Option (List ℕ)) (ends more : Option ℕ) → known_by name told ends ≡ known_by called other more → told ≡ other }
    ensures ends { (name called : List ℕ) (told other : Option (List ℕ)) (ends more : Option ℕ) → known_by name told ends ≡ known_by called other more → ends ≡ more }
{}
