//! The names of components, the kind that each makes, and the errors of names that make none.

ghost use Rattle.std.specs.Prelude.{◌≡◌, Some, Err, IsOkAnd, MatchOption};
ghost use Rattle.il_machine.specs.Kinds.{kind_of};
ghost use Rattle.il_machine.specs.Components.{name_refusals};
ghost use Rattle.il_machine.specs.Lists.{first_of_these};

use omx_types::{Kind, OmxError};

fn kind_of(name: &str) -> Option<Kind>
    ensures { result ≡ kind_of name.now }
{
    match name {
        "OMX.lab.source.wav" => Some(Kind::Source),
        "OMX.lab.source.late" => Some(Kind::Late),
        "OMX.lab.decoder.g711" => Some(Kind::Decoder),
        "OMX.lab.encoder.alaw" => Some(Kind::Alaw),
        "OMX.lab.encoder.mulaw" => Some(Kind::Mulaw),
        "OMX.lab.gain" => Some(Kind::Gain),
        "OMX.lab.mixer.2" => Some(Kind::Mixer(2)),
        "OMX.lab.mixer.3" => Some(Kind::Mixer(3)),
        "OMX.lab.mixer.4" => Some(Kind::Mixer(4)),
        "OMX.lab.mixer.5" => Some(Kind::Mixer(5)),
        "OMX.lab.mixer.6" => Some(Kind::Mixer(6)),
        "OMX.lab.mixer.7" => Some(Kind::Mixer(7)),
        "OMX.lab.mixer.8" => Some(Kind::Mixer(8)),
        "OMX.lab.splitter.2" => Some(Kind::Splitter(2)),
        "OMX.lab.splitter.3" => Some(Kind::Splitter(3)),
        "OMX.lab.splitter.4" => Some(Kind::Splitter(4)),
        "OMX.lab.splitter.5" => Some(Kind::Splitter(5)),
        "OMX.lab.splitter.6" => Some(Kind::Splitter(6)),
        "OMX.lab.splitter.7" => Some(Kind::Splitter(7)),
        "OMX.lab.splitter.8" => Some(Kind::Splitter(8)),
        "OMX.lab.sink.wav" => Some(Kind::Sink),
        _ => None,
    }
}

/// The kind of component that the name makes.
pub fn find(name: &str) -> Result<Kind, OmxError>
    ensures { MatchOption (first_of_these (name_refusals name.now)) (IsOkAnd result (λ kind. kind_of name.now ≡ Some kind)) (λ error. result ≡ Err error) }
{
    if name.is_empty() || name.len() > 127 {
        return Err(OmxError::InvalidComponentName);
    }
    kind_of(name).ok_or(OmxError::ComponentNotFound)
}
