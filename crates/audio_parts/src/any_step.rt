//! One step of a part of any kind.
ghost use Rattle.std.specs.Prelude.{◌⊎◌};
ghost use Rattle.audio_parts.specs.declared.any_part.AnyPart.TheVariants.{Source as ReadsFile, Decoder, Encoder, Gain as Gains, Mixer as Mixes, Splitter as Splits, Sink as WritesFile};
ghost use Rattle.audio_parts.specs.AnyParts.{has_failed, held_of, read_of, written_of};
ghost use Rattle.audio_parts.specs.Causes.{ReadCause, WriteCause};
ghost use Rattle.audio_parts.specs.Objects.{ObjectShows, ObjectStays};
ghost use Rattle.audio_parts.specs.Ready.{IsReady};
ghost use Rattle.part_forms.specs.Sinking.{writes_of};

use crate::any_part::AnyPart;
use crate::coder::{G711Decoder, G711Encoder};
use crate::gain::Gain;
use crate::mixer::Mixer;
use crate::splitter::Splitter;
use crate::wav_sink::WavSink;
use crate::wav_source::WavSource;
use omx_types::PartFault;
use outside_io::{Sink, Source};
use part_api::Part;

impl<S: Source, K: Sink> Part for AnyPart<S, K> {
    ghost shape = { elim [ ReadsFile part ↦ ⟦<WavSource<S> as Part>⟧.shape part | Decoder part ↦ ⟦<G711Decoder as Part>⟧.shape part | Encoder part ↦ ⟦<G711Encoder as Part>⟧.shape part | Gains part ↦ ⟦<Gain as Part>⟧.shape part | Mixes part ↦ ⟦<Mixer as Part>⟧.shape part | Splits part ↦ ⟦<Splitter as Part>⟧.shape part | WritesFile part ↦ ⟦<WavSink<K> as Part>⟧.shape part ] };

    ghost sizes = { elim [ ReadsFile part ↦ ⟦<WavSource<S> as Part>⟧.sizes part | Decoder part ↦ ⟦<G711Decoder as Part>⟧.sizes part | Encoder part ↦ ⟦<G711Encoder as Part>⟧.sizes part | Gains part ↦ ⟦<Gain as Part>⟧.sizes part | Mixes part ↦ ⟦<Mixer as Part>⟧.sizes part | Splits part ↦ ⟦<Splitter as Part>⟧.sizes part | WritesFile part ↦ ⟦<WavSink<K> as Part>⟧.sizes part ] };

    ghost carries = { elim [ ReadsFile part ↦ ⟦<WavSource<S> as Part>⟧.carries part | Decoder part ↦ ⟦<G711Decoder as Part>⟧.carries part | Encoder part ↦ ⟦<G711Encoder as Part>⟧.carries part | Gains part ↦ ⟦<Gain as Part>⟧.carries part | Mixes part ↦ ⟦<Mixer as Part>⟧.carries part | Splits part ↦ ⟦<Splitter as Part>⟧.carries part | WritesFile part ↦ ⟦<WavSink<K> as Part>⟧.carries part ] };

    ghost terms = { elim [ ReadsFile part ↦ ⟦<WavSource<S> as Part>⟧.terms part | Decoder part ↦ ⟦<G711Decoder as Part>⟧.terms part | Encoder part ↦ ⟦<G711Encoder as Part>⟧.terms part | Gains part ↦ ⟦<Gain as Part>⟧.terms part | Mixes part ↦ ⟦<Mixer as Part>⟧.terms part | Splits part ↦ ⟦<Splitter as Part>⟧.terms part | WritesFile part ↦ ⟦<WavSink<K> as Part>⟧.terms part ] };

    ghost failed = { λ part. has_failed part };

    ghost is_ready = { λ part. IsReady (elim part [ ReadsFile it ↦ ⟦<WavSource<S> as Part>⟧.terms it | Decoder it ↦ ⟦<G711Decoder as Part>⟧.terms it | Encoder it ↦ ⟦<G711Encoder as Part>⟧.terms it | Gains it ↦ ⟦<Gain as Part>⟧.terms it | Mixes it ↦ ⟦<Mixer as Part>⟧.terms it | Splits it ↦ ⟦<Splitter as Part>⟧.terms it | WritesFile it ↦ ⟦<WavSink<K> as Part>⟧.terms it ]) (has_failed part) };

    ghost can_take = { elim [ ReadsFile part ↦ λ input. ⊥ | Decoder part ↦ ⟦<G711Decoder as Part>⟧.can_take part | Encoder part ↦ ⟦<G711Encoder as Part>⟧.can_take part | Gains part ↦ ⟦<Gain as Part>⟧.can_take part | Mixes part ↦ ⟦<Mixer as Part>⟧.can_take part | Splits part ↦ ⟦<Splitter as Part>⟧.can_take part | WritesFile part ↦ ⟦<WavSink<K> as Part>⟧.can_take part ] };

    ghost can_put = { elim [ ReadsFile part ↦ ⟦<WavSource<S> as Part>⟧.can_put part | Decoder part ↦ ⟦<G711Decoder as Part>⟧.can_put part | Encoder part ↦ ⟦<G711Encoder as Part>⟧.can_put part | Gains part ↦ ⟦<Gain as Part>⟧.can_put part | Mixes part ↦ ⟦<Mixer as Part>⟧.can_put part | Splits part ↦ ⟦<Splitter as Part>⟧.can_put part | WritesFile part ↦ λ output. ⊥ ] };

    ghost can_step = { elim [ ReadsFile part ↦ ⟦<WavSource<S> as Part>⟧.can_step part | Decoder part ↦ ⟦<G711Decoder as Part>⟧.can_step part | Encoder part ↦ ⟦<G711Encoder as Part>⟧.can_step part | Gains part ↦ ⟦<Gain as Part>⟧.can_step part | Mixes part ↦ ⟦<Mixer as Part>⟧.can_step part | Splits part ↦ ⟦<Splitter as Part>⟧.can_step part | WritesFile part ↦ ⟦<WavSink<K> as Part>⟧.can_step part ] };

    ghost rest = { elim [ ReadsFile part ↦ ⟦<WavSource<S> as Part>⟧.rest part | Decoder part ↦ ⟦<G711Decoder as Part>⟧.rest part | Encoder part ↦ ⟦<G711Encoder as Part>⟧.rest part | Gains part ↦ ⟦<Gain as Part>⟧.rest part | Mixes part ↦ ⟦<Mixer as Part>⟧.rest part | Splits part ↦ ⟦<Splitter as Part>⟧.rest part | WritesFile part ↦ ⟦<WavSink<K> as Part>⟧.rest part ] };

    ghost left = { elim [ ReadsFile part ↦ ⟦<WavSource<S> as Part>⟧.left part | Decoder part ↦ ⟦<G711Decoder as Part>⟧.left part | Encoder part ↦ ⟦<G711Encoder as Part>⟧.left part | Gains part ↦ ⟦<Gain as Part>⟧.left part | Mixes part ↦ ⟦<Mixer as Part>⟧.left part | Splits part ↦ ⟦<Splitter as Part>⟧.left part | WritesFile part ↦ ⟦<WavSink<K> as Part>⟧.left part ] };

    ghost kept = { elim [ ReadsFile part ↦ ⟦<WavSource<S> as Part>⟧.kept part | Decoder part ↦ ⟦<G711Decoder as Part>⟧.kept part | Encoder part ↦ ⟦<G711Encoder as Part>⟧.kept part | Gains part ↦ ⟦<Gain as Part>⟧.kept part | Mixes part ↦ ⟦<Mixer as Part>⟧.kept part | Splits part ↦ ⟦<Splitter as Part>⟧.kept part | WritesFile part ↦ ⟦<WavSink<K> as Part>⟧.kept part ] };

    ghost writing = { elim [ ReadsFile part ↦ ⟦<WavSource<S> as Part>⟧.writing part | Decoder part ↦ ⟦<G711Decoder as Part>⟧.writing part | Encoder part ↦ ⟦<G711Encoder as Part>⟧.writing part | Gains part ↦ ⟦<Gain as Part>⟧.writing part | Mixes part ↦ ⟦<Mixer as Part>⟧.writing part | Splits part ↦ ⟦<Splitter as Part>⟧.writing part | WritesFile part ↦ ⟦<WavSink<K> as Part>⟧.writing part ] };

    ghost writes = { λ part incoming. writes_of (elim part [ ReadsFile it ↦ ⟦<WavSource<S> as Part>⟧.writing it | Decoder it ↦ ⟦<G711Decoder as Part>⟧.writing it | Encoder it ↦ ⟦<G711Encoder as Part>⟧.writing it | Gains it ↦ ⟦<Gain as Part>⟧.writing it | Mixes it ↦ ⟦<Mixer as Part>⟧.writing it | Splits it ↦ ⟦<Splitter as Part>⟧.writing it | WritesFile it ↦ ⟦<WavSink<K> as Part>⟧.writing it ]) (incoming.input 0) };

    ghost has_cause = { λ old new fault. ReadCause (λ it. S.size it.source) (λ it. S.ends it.source) (λ it. it.next) (λ it. S.faults it.source) (read_of old) (read_of new) fault ⊎ WriteCause (λ it. K.faults it.sink) (written_of old) (written_of new) fault };

    ghost keeps = { λ old new. ObjectStays S.name S.size S.told S.ends S.offset S.faults K.name K.faults (held_of old) (held_of new) };

    ghost shows = { λ old new fault. ObjectShows S.size S.ends S.offset S.faults K.faults fault (held_of old) (held_of new) };

    fn begin(&mut self, frames: u32) {
        match self {
            AnyPart::Source(part) => part.begin(frames),
            AnyPart::Decoder(part) => part.begin(frames),
            AnyPart::Encoder(part) => part.begin(frames),
            AnyPart::Gain(part) => part.begin(frames),
            AnyPart::Mixer(part) => part.begin(frames),
            AnyPart::Splitter(part) => part.begin(frames),
            AnyPart::Sink(part) => part.begin(frames),
        }
    }

    fn take(&mut self, input: u32, piece: &[u8]) {
        match self {
            AnyPart::Source(part) => part.take(input, piece),
            AnyPart::Decoder(part) => part.take(input, piece),
            AnyPart::Encoder(part) => part.take(input, piece),
            AnyPart::Gain(part) => part.take(input, piece),
            AnyPart::Mixer(part) => part.take(input, piece),
            AnyPart::Splitter(part) => part.take(input, piece),
            AnyPart::Sink(part) => part.take(input, piece),
        }
    }

    fn step(&mut self) -> Option<PartFault> {
        match self {
            AnyPart::Source(part) => part.step(),
            AnyPart::Decoder(part) => part.step(),
            AnyPart::Encoder(part) => part.step(),
            AnyPart::Gain(part) => part.step(),
            AnyPart::Mixer(part) => part.step(),
            AnyPart::Splitter(part) => part.step(),
            AnyPart::Sink(part) => part.step(),
        }
    }

    fn put(&mut self, output: u32, piece: &mut [u8]) {
        match self {
            AnyPart::Source(part) => part.put(output, piece),
            AnyPart::Decoder(part) => part.put(output, piece),
            AnyPart::Encoder(part) => part.put(output, piece),
            AnyPart::Gain(part) => part.put(output, piece),
            AnyPart::Mixer(part) => part.put(output, piece),
            AnyPart::Splitter(part) => part.put(output, piece),
            AnyPart::Sink(part) => part.put(output, piece),
        }
    }

    fn joins(&self) {
        match self {
            AnyPart::Source(part) => part.joins(),
            AnyPart::Decoder(part) => part.joins(),
            AnyPart::Encoder(part) => part.joins(),
            AnyPart::Gain(part) => part.joins(),
            AnyPart::Mixer(part) => part.joins(),
            AnyPart::Splitter(part) => part.joins(),
            AnyPart::Sink(part) => part.joins(),
        }
    }
}
