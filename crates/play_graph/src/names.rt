//! The names of components (OpenMAX IL 1.1.2, `OMX_GetHandle`).

ghost use Rattle.std.specs.Prelude.{◌≡◌, ◌≤◌};
ghost use Rattle.part_forms.specs.Kinds.{IsSized};
ghost use Rattle.play_build_laws.specs.Stages.{name_of};

use omx_types::Kind;

fn mixer_name(inputs: u32) -> &'static str
    requires { IsSized (Kind.Mixer inputs) }
    ensures { result.now ≡ name_of (Kind.Mixer inputs) }
{
    match inputs {
        2 => "OMX.lab.mixer.2",
        3 => "OMX.lab.mixer.3",
        4 => "OMX.lab.mixer.4",
        5 => "OMX.lab.mixer.5",
        6 => "OMX.lab.mixer.6",
        7 => "OMX.lab.mixer.7",
        8 => "OMX.lab.mixer.8",
        _ => unreachable!(),
    }
}

fn splitter_name(outputs: u32) -> &'static str
    requires { IsSized (Kind.Splitter outputs) }
    ensures { result.now ≡ name_of (Kind.Splitter outputs) }
{
    match outputs {
        2 => "OMX.lab.splitter.2",
        3 => "OMX.lab.splitter.3",
        4 => "OMX.lab.splitter.4",
        5 => "OMX.lab.splitter.5",
        6 => "OMX.lab.splitter.6",
        7 => "OMX.lab.splitter.7",
        8 => "OMX.lab.splitter.8",
        _ => unreachable!(),
    }
}

/// The name that makes a component of the kind.
pub(crate) fn name_of(kind: Kind) -> &'static str
    requires { IsSized kind }
    ensures { result.now ≡ name_of kind }
{
    match kind {
        Kind::Source => "OMX.lab.source.wav",
        Kind::Late => "OMX.lab.source.late",
        Kind::Decoder => "OMX.lab.decoder.g711",
        Kind::Alaw => "OMX.lab.encoder.alaw",
        Kind::Mulaw => "OMX.lab.encoder.mulaw",
        Kind::Gain => "OMX.lab.gain",
        Kind::Mixer(inputs) => mixer_name(inputs),
        Kind::Splitter(outputs) => splitter_name(outputs),
        Kind::Sink => "OMX.lab.sink.wav",
    }
}
