//! The file of a part of any kind.
ghost use Rattle.std.specs.Prelude.{◌≡◌, ◌*◌, false, None, Some, option_copied, option_map, is_some, IfSome, MatchOption};
ghost use Rattle.std.specs.List.{AllByRecursion};
ghost use Rattle.omx_types.specs.Formats.{frame_bytes_of};
ghost use Rattle.audio_parts.specs.AnyParts.{MayAttach, OnFrom, OnTo, attached_of, file_of, read_of, sink_of, written_of};
ghost use Rattle.part_forms.specs.Files.{rest_of};
ghost use Rattle.part_forms.specs.Kinds.{is_source};
ghost use Rattle.audio_parts.specs.Kinds.{with_file};
ghost use Rattle.part_forms.specs.Sinking.{fresh};

use crate::any_part::AnyPart;
use crate::part_file::PartFile;
use outside_io::{Sink, Source};
use part_api::Part;

impl<S: Source, K: Sink> AnyPart<S, K> {
    /// Gives a source the file that it reads, from where that stands, or a sink the file that it writes. A step that was
    /// begun is given up.
    pub fn attach(&mut self, file: PartFile<S, K>)
        requires free { (⟦<AnyPart<S, K> as Part>⟧.terms self.old).file ≡ None }
        requires may { MayAttach S.offset S.size (⟦<AnyPart<S, K> as Part>⟧.terms self.old).kind file }
        ensures terms { ⟦<AnyPart<S, K> as Part>⟧.terms self.new ≡ with_file (⟦<AnyPart<S, K> as Part>⟧.terms self.old) (Some (attached_of file)) }
        ensures failed { ⟦<AnyPart<S, K> as Part>⟧.failed self.new ≡ ⟦<AnyPart<S, K> as Part>⟧.failed self.old }
        ensures file { file_of self.new ≡ Some file }
        ensures read { OnFrom file (λ src format frames. read_of self.new ≡ Some (record { source = src; format = format; attached = frames; left = frames; next = S.offset src })) }
        ensures written { OnTo file (λ snk frames. written_of self.new ≡ Some (record { sink = snk; planned = frames; left = frames; headed = false })) }
        ensures left { OnFrom file (λ src format frames. ⟦<AnyPart<S, K> as Part>⟧.left self.new ≡ Some frames) }
        ensures rest { OnFrom file (λ src format frames. ⟦<AnyPart<S, K> as Part>⟧.rest self.new ≡ rest_of (S.told src) (S.offset src) (frames * frame_bytes_of format)) }
        ensures kept { OnTo file (λ snk frames. ⟦<AnyPart<S, K> as Part>⟧.kept self.new ≡ K.told snk) }
        ensures written_anew { OnTo file (λ snk frames. MatchOption (⟦<AnyPart<S, K> as Part>⟧.writing self.new) ⊥ (λ w. w ≡ fresh (K.name snk) w.format frames)) }
        ensures writing { OnTo file (λ snk frames. AllByRecursion (λ port. ⟦<AnyPart<S, K> as Part>⟧.writing self.new ≡ Some (fresh (K.name snk) port frames)) (⟦<AnyPart<S, K> as Part>⟧.terms self.old).inputs) }
    {
        match file {
            PartFile::From {
                src,
                format,
                frames,
            } => match self {
                AnyPart::Source(part) => part.attach(src, format, frames),
                _ => unreachable!(),
            },
            PartFile::To { snk, frames } => match self {
                AnyPart::Sink(part) => part.attach(snk, frames),
                _ => unreachable!(),
            },
        }
    }

    /// Takes its file away, with the frames for which that came. A step that was begun is given up.
    pub fn detach(&mut self) -> Option<PartFile<S, K>>
        ensures file { result ≡ file_of self.old }
        ensures attached { option_map attached_of result ≡ (⟦<AnyPart<S, K> as Part>⟧.terms self.old).file }
        ensures none { file_of self.new ≡ None }
        ensures unread { read_of self.new ≡ None }
        ensures unwritten { written_of self.new ≡ None }
        ensures terms { ⟦<AnyPart<S, K> as Part>⟧.terms self.new ≡ with_file (⟦<AnyPart<S, K> as Part>⟧.terms self.old) None }
        ensures failed { ⟦<AnyPart<S, K> as Part>⟧.failed self.new ≡ ⟦<AnyPart<S, K> as Part>⟧.failed self.old }
        ensures left { ⟦<AnyPart<S, K> as Part>⟧.left self.new ≡ option_map (λ frames. 0) (⟦<AnyPart<S, K> as Part>⟧.left self.old) }
        ensures kept { ⟦<AnyPart<S, K> as Part>⟧.kept self.new ≡ None }
        ensures writing { ⟦<AnyPart<S, K> as Part>⟧.writing self.new ≡ None }
    {
        match self {
            AnyPart::Source(part) => match part.detach() {
                Some(file) => Some(file.into_part_file()),
                None => None,
            },
            AnyPart::Sink(part) => match part.detach() {
                Some(file) => Some(file.into_part_file()),
                None => None,
            },
            _ => None,
        }
    }

    /// Its file, at its end.
    pub fn into_file(self) -> Option<PartFile<S, K>>
        ensures { result ≡ file_of self }
    {
        match self {
            AnyPart::Source(part) => match part.into_file() {
                Some(file) => Some(file.into_part_file()),
                None => None,
            },
            AnyPart::Sink(part) => match part.into_file() {
                Some(file) => Some(file.into_part_file()),
                None => None,
            },
            AnyPart::Decoder(_) | AnyPart::Encoder(_) => None,
            AnyPart::Gain(_) | AnyPart::Mixer(_) | AnyPart::Splitter(_) => None,
        }
    }

    /// The sink that a sink's part writes to, where it has a file.
    pub fn sink(&self) -> Option<&K>
        ensures sink { option_copied result ≡ sink_of self.now }
        ensures kept { IfSome (sink_of self.now) (λ snk. ⟦<AnyPart<S, K> as Part>⟧.kept self.now ≡ K.told snk) }
    {
        match self {
            AnyPart::Sink(part) => part.sink(),
            _ => None,
        }
    }

    /// The frames of its file that a source hasn't given yet.
    pub fn left(&self) -> Option<u64>
        ensures value { result ≡ ⟦<AnyPart<S, K> as Part>⟧.left self.now }
        ensures some { is_some result ≡ is_source (⟦<AnyPart<S, K> as Part>⟧.terms self.now).kind }
        ensures empty { (⟦<AnyPart<S, K> as Part>⟧.terms self.now).file ≡ None → IfSome result (λ frames. frames ≡ 0) }
    {
        match self {
            AnyPart::Source(part) => Some(part.left()),
            _ => None,
        }
    }
}
