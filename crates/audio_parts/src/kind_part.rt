//! Parts of a kind: what their terms tell, and how their files stay over calls. A part of any kind is one.

ghost use Rattle.std.specs.Prelude.{◌≡◌, true, length, is_some};
ghost use Rattle.omx_types.specs.declared.fault.PartFault.{PartFault as Fault};
ghost use Rattle.part_api.specs.Streams.{Incoming};
ghost use Rattle.part_forms.specs.Kinds.{is_source};
ghost use Rattle.part_forms.specs.Shapes.{shape_of};
ghost use Rattle.part_forms.specs.Sinking.{writes_of};
ghost use Rattle.audio_parts.specs.AnyParts.{held_of};
ghost use Rattle.audio_parts.specs.FileTerms.{IsOfKind, IsOfTerms};
ghost use Rattle.audio_parts.specs.ObjectLaws.{object_further, object_itself, shows_earlier, shows_later};
ghost use Rattle.audio_parts.specs.Ready.{IsReady};

use crate::any_part::AnyPart;
use outside_io::{Sink, Source};
use part_api::Part;

/// A part of a component of some kind: its terms say what it does, what it does with its file, and which faults it may have.
pub trait KindPart: Part {
    /// How many inputs it has.
    fn inputs(&self) -> u32
        ensures { result ≡ (Self.shape self.now).inputs };

    /// The bytes of a frame of an input.
    fn input_frame(&self) -> usize
        ensures { result ≡ (Self.shape self.now).input_frame };

    /// The bytes of a frame of an output.
    fn output_frame(&self) -> usize
        ensures { result ≡ (Self.shape self.now).output_frame };

    /// The frames of its file that a source hasn't given yet.
    fn frames_left(&self) -> Option<u64>
        ensures value { result ≡ Self.left self.now }
        ensures some { is_some result ≡ is_source (Self.terms self.now).kind };

    /// What is told by its terms. The call does nothing.
    fn is_by_terms(&self)
        ensures shape { Self.shape self.now ≡ shape_of (Self.terms self.now) }
        ensures ready { Self.is_ready self.now → IsReady (Self.terms self.now) (Self.failed self.now) }
        ensures writing { IsOfTerms (Self.terms self.now) (Self.writing self.now) }
        ensures writes { (part : Self) (incoming : Incoming) → Self.writes part incoming ≡ writes_of (Self.writing part) (incoming.input 0) }
        ensures reads { (incoming : Incoming) → is_source (Self.terms self.now).kind ≡ true → Self.carries self.now incoming → length incoming.file ≡ (Self.sizes self.now).output }
        ensures faults { (after : Self) (fault : Fault) → Self.has_cause self.now after fault → IsOfKind (Self.terms self.now).kind fault };

    /// The object of its file stays where nothing is done.
    ghost itself: { (part : Self) → Self.keeps part part };

    /// It stays over two calls where it stays over each.
    ghost further: { (before mid after : Self) → Self.keeps before mid → Self.keeps mid after → Self.keeps before after };

    /// What a fault shows since some call it shows since an earlier one.
    ghost earlier: { (before mid after : Self) (fault : Fault) → Self.keeps before mid → Self.shows mid after fault → Self.shows before after fault };

    /// It shows the same after a later one.
    ghost later: { (before mid after : Self) (fault : Fault) → Self.shows before mid fault → Self.keeps mid after → Self.shows before after fault };
}

impl<S: Source, K: Sink> KindPart for AnyPart<S, K> {
    fn inputs(&self) -> u32 {
        match self {
            AnyPart::Source(_) => 0,
            AnyPart::Mixer(part) => part.inputs(),
            _ => 1,
        }
    }

    fn input_frame(&self) -> usize {
        match self {
            AnyPart::Source(_) => 0,
            AnyPart::Decoder(part) => part.input_frame(),
            AnyPart::Encoder(part) => part.input_frame(),
            AnyPart::Gain(part) => part.input_frame(),
            AnyPart::Mixer(part) => part.frame(),
            AnyPart::Splitter(part) => part.input_frame(),
            AnyPart::Sink(part) => part.frame(),
        }
    }

    fn output_frame(&self) -> usize {
        match self {
            AnyPart::Source(part) => part.frame(),
            AnyPart::Decoder(part) => part.output_frame(),
            AnyPart::Encoder(part) => part.output_frame(),
            AnyPart::Gain(part) => part.output_frame(),
            AnyPart::Mixer(part) => part.frame(),
            AnyPart::Splitter(part) => part.output_frame(),
            AnyPart::Sink(part) => part.frame(),
        }
    }

    fn frames_left(&self) -> Option<u64> {
        self.left()
    }

    fn is_by_terms(&self) {
        match self {
            AnyPart::Source(part) => part.reads_whole(),
            AnyPart::Decoder(_) => {}
            AnyPart::Encoder(_) => {}
            AnyPart::Gain(_) => {}
            AnyPart::Mixer(_) => {}
            AnyPart::Splitter(_) => {}
            AnyPart::Sink(_) => {}
        }
    }

    ghost itself = { λ part. object_itself S.name S.size S.told S.ends S.offset S.faults K.name K.faults (held_of part) };

    ghost further = { λ before mid after. object_further S.name S.size S.told S.ends S.offset S.faults K.name K.faults (held_of before) (held_of mid) (held_of after) };

    ghost earlier = { λ before mid after fault. shows_earlier S.name S.size S.told S.ends S.offset S.faults K.name K.faults fault (held_of before) (held_of mid) (held_of after) };

    ghost later = { λ before mid after fault. shows_later S.name S.size S.told S.ends S.offset S.faults K.name K.faults fault (held_of before) (held_of mid) (held_of after) };
}
