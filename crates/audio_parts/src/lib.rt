//! The parts of the audio components: what each does with the frames of a step.
#![tactic(auto)]

mod any_file;
mod any_part;
mod any_settings;
mod any_step;
mod coder;
mod effect;
mod file_laws;
mod gain;
mod kind_part;
mod laws;
mod mixer;
mod one_input;
mod part_file;
mod reads;
mod register;
mod sink_file;
mod source_file;
mod splitter;
mod threads;
mod wav_sink;
mod wav_source;
mod writes;

pub use any_part::AnyPart;
pub use coder::{Decoding, Encoding, G711Decoder, G711Encoder};
pub use effect::Effect;
pub use file_laws::{law_of_keeping, law_of_reading};
pub use g711_law::Companding;
pub use gain::{Gain, Gaining};
pub use kind_part::KindPart;
pub use laws::{
    frames_by_format, law_of_padding, law_of_shown, law_of_writing, lawful_terms, shape_by_terms,
    writes_by_writing,
};
pub use mixer::Mixer;
pub use one_input::OneInput;
pub use part_file::PartFile;
pub use reads::read_frames;
pub use sink_file::SinkFile;
pub use source_file::SourceFile;
pub use splitter::{Splitter, Splitting};
pub use wav_sink::WavSink;
pub use wav_source::WavSource;

/// Want of memory.
pub type OutOfMemory = std::alloc::AllocError;
