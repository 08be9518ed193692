//! What must hold of reading and writing WAV heads, stated on functions that do nothing.

ghost use Rattle.std.specs.Prelude.{◌≡◌, ℕ, ◌+◌, ◌*◌, ◌≤◌, ◌++◌, List, length, Result, Ok};
ghost use Rattle.omx_types.specs.declared.format.Format.{Format};
ghost use Rattle.omx_types.specs.declared.fault.WavFault.{WavFault};
ghost use Rattle.omx_types.specs.Formats.{IsWithinLimits, frame_bytes_of};
ghost use Rattle.wav_form.specs.declared.heads.WavHead.{WavHead};
ghost use Rattle.wav_form.specs.Reading.{Reads, most_bytes};
ghost use Rattle.part_forms.specs.Writing.{head_len, head_of};

/// Any bytes read as one answer.
pub fn one_answer()
    ensures some { (bytes : List ℕ) → (answer : Result WavHead WavFault) × Reads bytes answer }
    ensures same { (bytes : List ℕ) (one other : Result WavHead WavFault) → Reads bytes one → Reads bytes other → one ≡ other }
{}

/// A written head is read back from the file of it and its samples, whatever follows them, as the same format and
/// frames, which begin behind it.
pub fn head_again()
    ensures { (format : Format) (frames : ℕ) (samples rest : List ℕ) → IsWithinLimits format →
        length samples ≡ frames * frame_bytes_of format →
        head_len format + length samples + length rest ≤ most_bytes →
        Reads (head_of format frames ++ samples ++ rest)
        (Ok (record { format = format; start = head_len format; frames = frames })) }
{}
