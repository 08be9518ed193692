//! A part as one of a network of parts: what it gives of two stretches, how long that is, and what it looks at; and what a
//! sink's steps write. Stated on functions that do nothing; the play's streams stand on them.

ghost use Rattle.std.specs.Prelude.{◌≡◌, ℕ, ◌+◌, ◌-◌, ◌*◌, ◌<◌, ◌≤◌, true, false, List, ◌++◌, length};
ghost use Rattle.omx_types.specs.declared.format.Format.{Format};
ghost use Rattle.omx_types.specs.Formats.{IsWithinLimits, frame_bytes_of};
ghost use Rattle.part_api.specs.Streams.{Incoming};
ghost use Rattle.part_api.specs.Terms.{Terms};
ghost use Rattle.part_forms.specs.Kinds.{IsSized, is_source};
ghost use Rattle.part_forms.specs.Shapes.{shape_of};
ghost use Rattle.part_forms.specs.Sinking.{sink_text};
ghost use Rattle.part_forms.specs.Writing.{written};
ghost use Rattle.audio_parts.specs.Shapes.{IsLawful};
ghost use Rattle.il_machine.specs.Lists.{is_empty};
ghost use Rattle.play_model.specs.Content.{IsPart, padded};
ghost use Rattle.play_stream_laws.specs.Parts.{part_of};
ghost use Rattle.play_stream_laws.specs.Sunk.{sunk};

/// The plain function of a part of lawful terms goes stretch by stretch, and gives as many frames as come in. It looks at nothing
/// but the part's inputs, and at the file of a source; and zeros behind the shorter inputs change nothing.
pub fn law_of_plain_parts()
    ensures parts { (terms : Terms) → IsSized terms.kind → IsLawful terms → IsPart (part_of terms) }
    ensures same { (terms : Terms) (incoming other_incoming : Incoming) (output : ℕ)
        → ((input : ℕ) → input < (shape_of terms).inputs → incoming.input input ≡ other_incoming.input input) → (is_source terms.kind ≡ true → incoming.file ≡ other_incoming.file)
        → (shape_of terms).plain incoming output ≡ (shape_of terms).plain other_incoming output }
    ensures padded { (terms : Terms) (size : ℕ) (came : Incoming) (output : ℕ)
        → ((input : ℕ) → input < (shape_of terms).inputs → length (came.input input) ≤ size)
        → (is_source terms.kind ≡ false → (input : ℕ) × (input < (shape_of terms).inputs) × (length (came.input input) ≡ size))
        → (shape_of terms).plain (record { input = λ input. padded size (came.input input); file = came.file }) output
        ≡ (shape_of terms).plain came output }
{}

/// What a sink's file has taken is never empty. With the next step it is what one step of all the frames writes; and once all
/// planned frames were written it is the file of these.
pub fn law_of_sunk_text()
    ensures some { (format : Format) (planned frames : ℕ) (bytes : List ℕ) → is_empty (sunk format planned frames bytes) ≡ false }
    ensures joined { (format : Format) (planned frames more : ℕ) (bytes rest : List ℕ)
        → length bytes ≡ frames * frame_bytes_of format → length rest ≡ more * frame_bytes_of format
        → sunk format planned frames bytes ++ sink_text true format planned (planned - frames) more rest
        ≡ sunk format planned (frames + more) (bytes ++ rest) }
    ensures whole { (format : Format) (planned : ℕ) (bytes : List ℕ) → IsWithinLimits format
        → length bytes ≡ planned * frame_bytes_of format → sunk format planned planned bytes ≡ written format bytes }
{}
