//! The part of a gain: each sample times a factor, rounded down and clamped.

ghost use Rattle.std.specs.Prelude.{◌≡◌, ◌≤◌, [], ◌∷◌, None};
ghost use Rattle.omx_types.specs.declared.kind.Kind.TheVariants as kinds;
ghost use Rattle.part_forms.specs.Manners.{gaining};

use crate::effect::Effect;
use crate::one_input::OneInput;
use omx_types::Format;
use pcm_ops::gain_into;

/// The part of a gain.
pub type Gain = OneInput<Gaining>;

/// Each sample times a factor in 4096ths, rounded down and clamped.
#[derive(Drop)]
pub struct Gaining {
    pub(crate) input: Format,
    pub(crate) output: Format,
    pub(crate) gain: u32,
    ghost small: { gain ≤ 65535 },
}

impl Gaining {
    pub(crate) fn new(input: Format, output: Format, gain: u32) -> Gaining
        requires { gain ≤ 65535 }
        ensures input { result.input ≡ input }
        ensures output { result.output ≡ output }
        ensures gain { result.gain ≡ gain }
    {
        Gaining {
            input,
            output,
            gain,
        }
    }
}

impl Gain {
    /// Sets the gain.
    pub(crate) fn set_gain(&mut self, gain: u32)
        requires { gain ≤ 65535 }
        ensures gain { self.new.effect.gain ≡ gain }
        ensures input { self.new.effect.input ≡ self.old.effect.input }
        ensures output { self.new.effect.output ≡ self.old.effect.output }
    {
        self.effect.gain = gain;
    }
}

impl Effect for Gaining {
    ghost manner = { λ it. gaining it.gain it.input };

    ghost terms = { λ it. record { kind = kinds.Gain; inputs = it.input ∷ []; outputs = it.output ∷ []; factors = it.gain ∷ []; file = None } };

    fn channels(&self) -> u32 {
        self.input.channels()
    }

    fn input_width(&self) -> usize {
        2
    }

    fn output_width(&self) -> usize {
        2
    }

    fn apply(&mut self, count: usize, from: &[u8], to: &mut [u8]) {
        gain_into(from, self.gain, to);
    }

    fn set_format(&mut self, port: u32, format: Format) {
        match port {
            0 => self.input = format,
            _ => self.output = format,
        }
    }

    fn joins(&self) {}
}
