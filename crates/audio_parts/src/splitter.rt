//! The part of a splitter: each output is a copy of the input.

ghost use Rattle.std.specs.Prelude.{◌≡◌, [], ◌∷◌, vec_len, None};
ghost use Rattle.omx_types.specs.declared.kind.Kind.TheVariants as kinds;
ghost use Rattle.part_forms.specs.Effects.{width_of};
ghost use Rattle.part_forms.specs.Manners.{splitting};

use crate::effect::Effect;
use crate::one_input::OneInput;
use omx_types::Format;
use pcm_ops::copy_into;

/// The part of a splitter.
pub type Splitter = OneInput<Splitting>;

/// The input as it is, on each output.
#[derive(Drop)]
pub struct Splitting {
    pub(crate) input: Format,
    pub(crate) outputs: Vec<Format>,
}

impl Splitting {
    pub(crate) fn new(input: Format, outputs: Vec<Format>) -> Splitting
        ensures { result ≡ record { input = input; outputs = outputs } }
    {
        Splitting { input, outputs }
    }
}

/// The bytes of a sample.
fn width(format: Format) -> usize
    ensures { result ≡ width_of format }
{
    match format {
        Format::Pcm {
            rate: _,
            channels: _,
        } => 2,
        _ => 1,
    }
}

impl Effect for Splitting {
    ghost manner = { λ it. splitting (vec_len it.outputs) it.input };

    ghost terms = { λ it. record { kind = kinds.Splitter (vec_len it.outputs); inputs = it.input ∷ []; outputs = it.outputs.items; factors = []; file = None } };

    fn channels(&self) -> u32 {
        self.input.channels()
    }

    fn input_width(&self) -> usize {
        width(self.input)
    }

    fn output_width(&self) -> usize {
        width(self.input)
    }

    fn apply(&mut self, count: usize, from: &[u8], to: &mut [u8]) {
        copy_into(from, to);
    }

    fn set_format(&mut self, port: u32, format: Format) {
        match port {
            0 => self.input = format,
            _ => self.outputs[port as usize - 1] = format,
        }
    }

    fn joins(&self) {}
}
