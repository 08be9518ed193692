//! A new part of any kind, and what its owner sets.
ghost use Rattle.std.specs.Prelude.{◌≡◌, ◌+◌, ◌<◌, ◌≤◌, true, false, [], length, None, Some, IfOk};
ghost use Rattle.part_forms.specs.Kinds.{IsSized, is_source};
ghost use Rattle.audio_parts.specs.AnyParts.{file_of, read_of, written_of};
ghost use Rattle.part_forms.specs.Effects.{coder_kind};
ghost use Rattle.audio_parts.specs.Kinds.{MayHave, default_terms, with_format, with_factor};
ghost use Rattle.part_forms.specs.Sinking.{reformatted};

use crate::OutOfMemory;
use crate::any_part::AnyPart;
use crate::coder::{Decoding, Encoding, G711Decoder, G711Encoder};
use crate::gain::{Gain, Gaining};
use crate::mixer::Mixer;
use crate::splitter::{Splitter, Splitting};
use crate::wav_sink::WavSink;
use crate::wav_source::WavSource;
use g711_law::Companding;
use omx_types::{Format, Kind, ONE};
use outside_io::{Sink, Source};
use part_api::Part;
use std::alloc::Global;

const PCM: Format = Format::Pcm {
    rate: 8000,
    channels: 1,
};

const ALAW: Format = Format::Alaw {
    rate: 8000,
    channels: 1,
};

const MULAW: Format = Format::Mulaw {
    rate: 8000,
    channels: 1,
};

fn new_mixer(alloc: Global, inputs: u32) -> Result<Mixer, OutOfMemory>
    requires some { 2 ≤ inputs }
    requires not_many { inputs ≤ 8 }
    ensures { IfOk result (λ mixer. ⟦<Mixer as Part>⟧.terms mixer ≡ default_terms (Kind.Mixer inputs)) }
{
    let formats = vec![in alloc; PCM; inputs as usize]?;
    let weights = vec![in alloc; ONE; inputs as usize]?;
    Mixer::new(alloc, formats, PCM, weights)
}

fn new_splitter(alloc: Global, outputs: u32) -> Result<Splitter, OutOfMemory>
    ensures { IfOk result (λ splitter. ⟦<Splitter as Part>⟧.terms splitter ≡ default_terms (Kind.Splitter outputs)) }
{
    let formats = vec![in alloc; PCM; outputs as usize]?;
    Splitter::new(alloc, Splitting::new(PCM, formats))
}

fn new_encoder(alloc: Global, companding: Companding) -> Result<G711Encoder, OutOfMemory>
    ensures { IfOk result (λ encoder. ⟦<G711Encoder as Part>⟧.terms encoder ≡ default_terms (coder_kind companding)) }
{
    let effect = match companding {
        Companding::ALaw => Encoding::new(companding, PCM, ALAW),
        Companding::MuLaw => Encoding::new(companding, PCM, MULAW),
    };
    G711Encoder::new(alloc, effect)
}

impl<S: Source, K: Sink> AnyPart<S, K> {
    /// A part of that kind, without a file: one channel at a rate of 8,000, PCM where a port may have
    /// it, else A-law, else mu-law; a gain and weights of one.
    pub fn new(alloc: Global, kind: Kind) -> Result<AnyPart<S, K>, OutOfMemory>
        requires { IsSized kind }
        ensures terms { IfOk result (λ part. ⟦<AnyPart<S, K> as Part>⟧.terms part ≡ default_terms kind) }
        ensures failed { IfOk result (λ part. ⟦<AnyPart<S, K> as Part>⟧.failed part ≡ false) }
        ensures file { IfOk result (λ part. file_of part ≡ None) }
        ensures read { IfOk result (λ part. read_of part ≡ None) }
        ensures written { IfOk result (λ part. written_of part ≡ None) }
        ensures left { IfOk result (λ part. is_source kind ≡ true → ⟦<AnyPart<S, K> as Part>⟧.left part ≡ Some 0) }
        ensures rest { IfOk result (λ part. is_source kind ≡ true → ⟦<AnyPart<S, K> as Part>⟧.rest part ≡ Some []) }
        ensures kept { IfOk result (λ part. ⟦<AnyPart<S, K> as Part>⟧.kept part ≡ None) }
        ensures writing { IfOk result (λ part. ⟦<AnyPart<S, K> as Part>⟧.writing part ≡ None) }
    {
        Ok(match kind {
            Kind::Source => AnyPart::Source(WavSource::new(alloc, false, PCM)?),
            Kind::Late => AnyPart::Source(WavSource::new(alloc, true, PCM)?),
            Kind::Decoder => {
                let effect = Decoding::new(ALAW, PCM);
                AnyPart::Decoder(G711Decoder::new(alloc, effect)?)
            }
            Kind::Alaw => AnyPart::Encoder(new_encoder(alloc, Companding::ALaw)?),
            Kind::Mulaw => AnyPart::Encoder(new_encoder(alloc, Companding::MuLaw)?),
            Kind::Gain => {
                let effect = Gaining::new(PCM, PCM, ONE);
                AnyPart::Gain(Gain::new(alloc, effect)?)
            }
            Kind::Mixer(inputs) => AnyPart::Mixer(new_mixer(alloc, inputs)?),
            Kind::Splitter(outputs) => AnyPart::Splitter(new_splitter(alloc, outputs)?),
            Kind::Sink => AnyPart::Sink(WavSink::new(alloc, PCM)?),
        })
    }

    /// Sets the format of a port: inputs are numbered from 0, then come the outputs. A step of a
    /// source or sink that was begun is given up.
    pub fn set_format(&mut self, port: u32, format: Format)
        requires port { port < length (⟦<AnyPart<S, K> as Part>⟧.terms self.old).inputs + length (⟦<AnyPart<S, K> as Part>⟧.terms self.old).outputs }
        requires may { MayHave (⟦<AnyPart<S, K> as Part>⟧.terms self.old) port format }
        ensures terms { ⟦<AnyPart<S, K> as Part>⟧.terms self.new ≡ with_format (⟦<AnyPart<S, K> as Part>⟧.terms self.old) port format }
        ensures failed { ⟦<AnyPart<S, K> as Part>⟧.failed self.new ≡ ⟦<AnyPart<S, K> as Part>⟧.failed self.old }
        ensures file { file_of self.new ≡ file_of self.old }
        ensures read { read_of self.new ≡ read_of self.old }
        ensures written { written_of self.new ≡ written_of self.old }
        ensures left { ⟦<AnyPart<S, K> as Part>⟧.left self.new ≡ ⟦<AnyPart<S, K> as Part>⟧.left self.old }
        ensures rest { ⟦<AnyPart<S, K> as Part>⟧.rest self.new ≡ ⟦<AnyPart<S, K> as Part>⟧.rest self.old }
        ensures kept { ⟦<AnyPart<S, K> as Part>⟧.kept self.new ≡ ⟦<AnyPart<S, K> as Part>⟧.kept self.old }
        ensures writing { ⟦<AnyPart<S, K> as Part>⟧.writing self.new ≡ reformatted format (⟦<AnyPart<S, K> as Part>⟧.writing self.old) }
    {
        match self {
            AnyPart::Source(part) => part.set_format(format),
            AnyPart::Decoder(part) => part.set_format(port, format),
            AnyPart::Encoder(part) => part.set_format(port, format),
            AnyPart::Gain(part) => part.set_format(port, format),
            AnyPart::Mixer(part) => part.set_format(port, format),
            AnyPart::Splitter(part) => part.set_format(port, format),
            AnyPart::Sink(part) => part.set_format(format),
        }
    }

    /// Sets a gain's gain, or the weight of a mixer's input.
    pub fn set_factor(&mut self, input: u32, factor: u32)
        requires input { input < length (⟦<AnyPart<S, K> as Part>⟧.terms self.old).factors }
        requires small { factor ≤ 65535 }
        ensures terms { ⟦<AnyPart<S, K> as Part>⟧.terms self.new ≡ with_factor (⟦<AnyPart<S, K> as Part>⟧.terms self.old) input factor }
        ensures failed { ⟦<AnyPart<S, K> as Part>⟧.failed self.new ≡ ⟦<AnyPart<S, K> as Part>⟧.failed self.old }
        ensures file { file_of self.new ≡ file_of self.old }
        ensures read { read_of self.new ≡ read_of self.old }
        ensures written { written_of self.new ≡ written_of self.old }
        ensures left { ⟦<AnyPart<S, K> as Part>⟧.left self.new ≡ ⟦<AnyPart<S, K> as Part>⟧.left self.old }
        ensures rest { ⟦<AnyPart<S, K> as Part>⟧.rest self.new ≡ ⟦<AnyPart<S, K> as Part>⟧.rest self.old }
        ensures kept { ⟦<AnyPart<S, K> as Part>⟧.kept self.new ≡ ⟦<AnyPart<S, K> as Part>⟧.kept self.old }
        ensures writing { ⟦<AnyPart<S, K> as Part>⟧.writing self.new ≡ ⟦<AnyPart<S, K> as Part>⟧.writing self.old }
    {
        match self {
            AnyPart::Gain(part) => part.set_gain(factor),
            AnyPart::Mixer(part) => part.set_weight(input, factor),
            _ => unreachable!(),
        }
    }
}
