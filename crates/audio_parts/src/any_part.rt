//! The part of a component of any kind: a source, decoder, encoder, gain, mixer, splitter or sink.

use crate::coder::{G711Decoder, G711Encoder};
use crate::gain::Gain;
use crate::mixer::Mixer;
use crate::splitter::Splitter;
use crate::wav_sink::WavSink;
use crate::wav_source::WavSource;
use outside_io::{Sink, Source};

/// The part of a component of any kind.
#[derive(Drop)]
pub enum AnyPart<S: Source, K: Sink> {
    Source(WavSource<S>),
    Decoder(G711Decoder),
    Encoder(G711Encoder),
    Gain(Gain),
    Mixer(Mixer),
    Splitter(Splitter),
    Sink(WavSink<K>),
}
