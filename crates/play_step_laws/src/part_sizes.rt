//! How long the streams are that a part gives. Stated on a function that does nothing; the play's worlds stand on it.

ghost use Rattle.std.specs.Prelude.{◌≡◌, ℕ, ◌*◌, true, length};
ghost use Rattle.part_api.specs.Streams.{Incoming, HasFrames};
ghost use Rattle.part_api.specs.Terms.{Terms};
ghost use Rattle.part_forms.specs.Kinds.{IsSized, is_source};
ghost use Rattle.part_forms.specs.Shapes.{shape_of};
ghost use Rattle.audio_parts.specs.Shapes.{IsLawful};

/// Of so many frames at each input, or of its file for a source, each output of a part gets as many.
pub fn law_of_sizes()
    ensures { (terms : Terms) (frames : ℕ) (incoming : Incoming) (output : ℕ) → IsSized terms.kind → IsLawful terms
        → HasFrames (shape_of terms) frames incoming
        → (is_source terms.kind ≡ true → length incoming.file ≡ frames * (shape_of terms).output_frame)
        → length ((shape_of terms).plain incoming output) ≡ frames * (shape_of terms).output_frame }
{}
