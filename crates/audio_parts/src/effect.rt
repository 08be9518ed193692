//! The effect of a part with one input: its sample widths, its formats, and what it makes of a piece.

ghost use Rattle.std.specs.Prelude.{◌≡◌, ℕ, ◌*◌, ◌≤◌, List, ◌++◌, length, ◌+◌, ◌<◌};
ghost use Rattle.part_api.specs.Terms.{Terms};
ghost use Rattle.audio_parts.specs.Kinds.{with_format};
ghost use Rattle.part_forms.specs.Manners.{Manner};

use omx_types::Format;

/// What a part with one input makes of it, for each of its outputs.
pub trait Effect: Drop {
    ghost manner: { Self → Manner };

    /// What the owner of its part set.
    ghost terms: { Self → Terms };

    /// The samples of a frame.
    fn channels(&self) -> u32
        ensures { result ≡ (manner self.now).channels };

    /// The bytes of a sample of the input.
    fn input_width(&self) -> usize
        ensures value { result ≡ (manner self.now).input_width }
        ensures small { result ≤ 2 };

    /// The bytes of a sample of an output.
    fn output_width(&self) -> usize
        ensures value { result ≡ (manner self.now).output_width }
        ensures small { result ≤ 2 };

    /// The effect on a piece of `count` samples.
    fn apply(&mut self, count: usize, from: &[u8], to: &mut [u8])
        requires few { count ≤ 4096 }
        requires whole { length from.now ≡ count * (manner self.old).input_width }
        requires room { length to.old ≡ count * (manner self.old).output_width }
        ensures value { to.new ≡ (manner self.old).effect from.now }
        ensures manner { manner self.new ≡ manner self.old }
        ensures terms { terms self.new ≡ terms self.old };

    /// Sets the format of a port.
    fn set_format(&mut self, port: u32, format: Format)
        requires { port < length (terms self.old).inputs + length (terms self.old).outputs }
        ensures { terms self.new ≡ with_format (terms self.old) port format };

    /// The effect on joined pieces of whole frames is the joined effect. The call does nothing.
    fn joins(&self)
        ensures { (frames : ℕ) (first second : List ℕ) → length first ≡ frames * ((manner self.now).channels * (manner self.now).input_width)
            → (manner self.now).effect (first ++ second) ≡ (manner self.now).effect first ++ (manner self.now).effect second };
}
