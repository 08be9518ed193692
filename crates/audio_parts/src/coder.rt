//! The two compandings of G.711, code by code.
ghost use Rattle.std.specs.Prelude.{◌≡◌, ◌*◌, [], ◌∷◌, length, None};
ghost use Rattle.omx_types.specs.declared.kind.Kind.TheVariants as kinds;
ghost use Rattle.part_forms.specs.Effects.{decoded, encoded, companding_of, coder_kind};
ghost use Rattle.part_forms.specs.Manners.{decoding, encoding};

use crate::effect::Effect;
use crate::one_input::OneInput;
use g711_law::{Companding, alaw_decode_all, alaw_encode_all, mulaw_decode_all, mulaw_encode_all};
use omx_types::Format;

/// The companding of coded samples.
fn companding_of(format: Format) -> Companding
    ensures { result ≡ companding_of format }
{
    match format {
        Format::Mulaw {
            rate: _,
            channels: _,
        } => Companding::MuLaw,
        _ => Companding::ALaw,
    }
}

/// The bytes of the sample that each code stands for.
fn decode(companding: Companding, from: &[u8], to: &mut [u8])
    requires { length to.old ≡ 2 * length from.now }
    ensures { to.new ≡ decoded companding from.now }
{
    match companding {
        Companding::ALaw => alaw_decode_all(from, to),
        Companding::MuLaw => mulaw_decode_all(from, to),
    }
}

/// The code of each sample.
fn encode(companding: Companding, from: &[u8], to: &mut [u8])
    requires { length from.now ≡ 2 * length to.old }
    ensures { to.new ≡ encoded companding from.now }
{
    match companding {
        Companding::ALaw => alaw_encode_all(from, to),
        Companding::MuLaw => mulaw_encode_all(from, to),
    }
}

/// The part of a decoder.
pub type G711Decoder = OneInput<Decoding>;

/// The part of an encoder.
pub type G711Encoder = OneInput<Encoding>;

/// The sample that each code stands for.
#[derive(Drop)]
pub struct Decoding {
    pub(crate) input: Format,
    pub(crate) output: Format,
}

/// The code of each sample.
#[derive(Drop)]
pub struct Encoding {
    companding: Companding,
    pub(crate) input: Format,
    pub(crate) output: Format,
}

impl Decoding {
    pub(crate) fn new(input: Format, output: Format) -> Decoding
        ensures { result ≡ record { input = input; output = output } }
    {
        Decoding { input, output }
    }
}

impl Encoding {
    pub(crate) fn new(companding: Companding, input: Format, output: Format) -> Encoding
        ensures { result ≡ record { companding = companding; input = input; output = output } }
    {
        Encoding {
            companding,
            input,
            output,
        }
    }
}

impl Effect for Decoding {
    ghost manner = { λ it. decoding it.input };

    ghost terms = { λ it. record { kind = kinds.Decoder; inputs = it.input ∷ []; outputs = it.output ∷ []; factors = []; file = None } };

    fn channels(&self) -> u32 {
        self.input.channels()
    }

    fn input_width(&self) -> usize {
        1
    }

    fn output_width(&self) -> usize {
        2
    }

    fn apply(&mut self, count: usize, from: &[u8], to: &mut [u8]) {
        decode(companding_of(self.input), from, to);
    }

    fn set_format(&mut self, port: u32, format: Format) {
        match port {
            0 => self.input = format,
            _ => self.output = format,
        }
    }

    fn joins(&self) {}
}

impl Effect for Encoding {
    ghost manner = { λ it. encoding it.companding it.input };

    ghost terms = { λ it. record { kind = coder_kind it.companding; inputs = it.input ∷ []; outputs = it.output ∷ []; factors = []; file = None } };

    fn channels(&self) -> u32 {
        self.input.channels()
    }

    fn input_width(&self) -> usize {
        2
    }

    fn output_width(&self) -> usize {
        1
    }

    fn apply(&mut self, count: usize, from: &[u8], to: &mut [u8]) {
        encode(self.companding, from, to);
    }

    fn set_format(&mut self, port: u32, format: Format) {
        match port {
            0 => self.input = format,
            _ => self.output = format,
        }
    }

    fn joins(&self) {}
}
