//! What a script line says of its component's kind, ports, units and formats.

ghost use Rattle.std.specs.Prelude.{◌≡◌, ◌+◌, ◌≤◌, ◌<◌, ◌^◌};
ghost use Rattle.il_machine.specs.Units.{units_of};
ghost use Rattle.omx_types.specs.Formats.{frame_bytes_of, is_pcm};
ghost use Rattle.part_forms.specs.Kinds.{inputs_of, ports_in, is_source, is_input_format};
ghost use Rattle.play_forms.specs.Flows.{given_format};
ghost use Rattle.play_forms.specs.Parts.{kind_of, has_input, has_output};

use omx_types::{Format, Kind};
use param_store::{inputs, outputs};
use script_lang::PartForm;

/// The kind of component that a script line names.
pub fn kind_of(form: &PartForm) -> Kind
    ensures { result ≡ kind_of form.now }
{
    match form {
        PartForm::Source(_) => Kind::Source,
        PartForm::Late(_) => Kind::Late,
        PartForm::Decoder => Kind::Decoder,
        PartForm::Alaw => Kind::Alaw,
        PartForm::Mulaw => Kind::Mulaw,
        PartForm::Gain(_) => Kind::Gain,
        PartForm::Mixer(weights) => Kind::Mixer(weights.as_slice().len() as u32),
        PartForm::Splitter(outputs) => Kind::Splitter(*outputs),
        PartForm::Sink(_) => Kind::Sink,
    }
}

/// Inputs and outputs together.
pub fn ports(kind: Kind) -> u64
    ensures { result ≡ ports_in kind }
{
    u64::from(inputs(kind)) + u64::from(outputs(kind))
}

/// Whether the port of this number is an input of the kind.
pub fn has_input(port: u32, kind: Kind) -> bool
    ensures { result ≡ has_input port kind }
{
    port < inputs(kind)
}

/// Whether the port of this number is an output of the kind.
pub fn has_output(port: u32, kind: Kind) -> bool
    ensures { result ≡ has_output port kind }
{
    inputs(kind) <= port && u64::from(port) < ports(kind)
}

/// Whether the kind reads a file.
pub fn is_source(kind: Kind) -> bool
    ensures { result ≡ is_source kind }
{
    matches!(kind, Kind::Source | Kind::Late)
}

/// The units that a component of the kind holds while it is up.
pub fn units(kind: Kind) -> u32
    ensures units { result ≡ units_of kind }
    ensures few { result ≤ 3 }
{
    match kind {
        Kind::Decoder | Kind::Alaw | Kind::Mulaw => 2,
        Kind::Mixer(_) => 3,
        Kind::Source | Kind::Late | Kind::Gain | Kind::Splitter(_) | Kind::Sink => 1,
    }
}

fn is_pcm(format: Format) -> bool
    ensures { result ≡ is_pcm format }
{
    matches!(
        format,
        Format::Pcm {
            rate: _,
            channels: _
        }
    )
}

/// The bytes of one frame.
pub fn frame_bytes(format: Format) -> u64
    ensures { result ≡ frame_bytes_of format }
{
    match format {
        Format::Pcm { rate: _, channels } => 2 * u64::from(channels),
        Format::Alaw { rate: _, channels } | Format::Mulaw { rate: _, channels } => {
            u64::from(channels)
        }
        Format::Auto => 1,
    }
}

/// Whether the kind's inputs take the format.
pub fn is_input_format(kind: Kind, format: Format) -> bool
    ensures { result ≡ is_input_format kind format }
{
    match kind {
        Kind::Source | Kind::Late => false,
        Kind::Decoder => !is_pcm(format) && !matches!(format, Format::Auto),
        Kind::Alaw | Kind::Mulaw | Kind::Gain | Kind::Mixer(_) => is_pcm(format),
        Kind::Splitter(_) | Kind::Sink => !matches!(format, Format::Auto),
    }
}

/// The format of a component's outputs, by that of its first input.
pub fn given_format(kind: Kind, format: Format) -> Format
    ensures { result ≡ given_format kind format }
{
    let rate = format.rate();
    let channels = format.channels();
    match kind {
        Kind::Decoder => Format::Pcm { rate, channels },
        Kind::Alaw => Format::Alaw { rate, channels },
        Kind::Mulaw => Format::Mulaw { rate, channels },
        _ => format,
    }
}
