//! What the table of kinds says of their ports.

ghost use Rattle.std.specs.Prelude.{◌≡◌, ◌+◌, ◌≤◌, ◌^◌, ◌<◌};
ghost use Rattle.il_machine.specs.Kinds.{inputs_of, outputs_of, ports_in, is_input, is_format_of, is_port_format, is_late};
ghost use Rattle.il_machine.specs.Settings.{default_format, default_setting, IsSized, is_gain, is_mixer, is_splitter};

use il_machine::PortSetting;
use omx_types::{BLOCK_BYTES, Format, Kind, PortDefinition, Supplier};

/// How many inputs a component of the kind has.
pub fn inputs(kind: Kind) -> u32
    ensures { result ≡ inputs_of kind }
{
    match kind {
        Kind::Source | Kind::Late => 0,
        Kind::Mixer(inputs) => inputs,
        Kind::Decoder | Kind::Alaw | Kind::Mulaw | Kind::Gain | Kind::Splitter(_) | Kind::Sink => 1,
    }
}

/// How many outputs a component of the kind has.
pub fn outputs(kind: Kind) -> u32
    ensures { result ≡ outputs_of kind }
{
    match kind {
        Kind::Sink => 0,
        Kind::Splitter(outputs) => outputs,
        Kind::Source
        | Kind::Late
        | Kind::Decoder
        | Kind::Alaw
        | Kind::Mulaw
        | Kind::Gain
        | Kind::Mixer(_) => 1,
    }
}

/// How many ports a component of the kind has: the inputs come first.
pub fn ports(kind: Kind) -> u32
    requires { IsSized kind }
    ensures count { result ≡ ports_in kind }
    ensures few { result ≤ 9 }
{
    inputs(kind) + outputs(kind)
}

/// Whether the port of this index is an input.
pub fn is_input(kind: Kind, port: u32) -> bool
    ensures { result ≡ is_input kind port }
{
    port < inputs(kind)
}

/// Whether the kind has a gain to be set.
pub fn is_gain(kind: Kind) -> bool
    ensures { result ≡ is_gain kind }
{
    matches!(kind, Kind::Gain)
}

/// Whether the kind has weights to be set.
pub fn is_mixer(kind: Kind) -> bool
    ensures { result ≡ is_mixer kind }
{
    matches!(kind, Kind::Mixer(_))
}

/// Whether the kind gives each output the same frames.
pub fn is_splitter(kind: Kind) -> bool
    ensures { result ≡ is_splitter kind }
{
    matches!(kind, Kind::Splitter(_))
}

fn is_late(kind: Kind) -> bool
    ensures { result ≡ is_late kind }
{
    matches!(kind, Kind::Late)
}

/// Whether the kind's inputs, or else its outputs, may have the format.
fn is_format_of(kind: Kind, input: bool, format: Format) -> bool
    ensures { result ≡ is_format_of kind input format }
{
    match (kind, input) {
        (Kind::Source, true) | (Kind::Late, true) | (Kind::Sink, false) => false,
        (Kind::Late, false) => true,
        (Kind::Source, false) | (Kind::Sink, true) | (Kind::Splitter(_), _) => {
            !matches!(format, Format::Auto)
        }
        (Kind::Decoder, true) => matches!(
            format,
            Format::Alaw {
                rate: _,
                channels: _
            } | Format::Mulaw {
                rate: _,
                channels: _
            }
        ),
        (Kind::Alaw, false) => matches!(
            format,
            Format::Alaw {
                rate: _,
                channels: _
            }
        ),
        (Kind::Mulaw, false) => matches!(
            format,
            Format::Mulaw {
                rate: _,
                channels: _
            }
        ),
        (Kind::Decoder, false)
        | (Kind::Alaw, true)
        | (Kind::Mulaw, true)
        | (Kind::Gain, _)
        | (Kind::Mixer(_), _) => matches!(
            format,
            Format::Pcm {
                rate: _,
                channels: _
            }
        ),
    }
}

/// Whether an input of the kind, or else an output, may have the format: also one that isn't known yet.
pub fn is_port_format(kind: Kind, input: bool, format: Format) -> bool
    ensures { result ≡ is_port_format kind input format }
{
    is_format_of(kind, input, format)
        || (matches!(format, Format::Auto) && (input || is_late(kind)))
}

fn default_format(kind: Kind, input: bool) -> Format
    ensures { result ≡ default_format kind input }
{
    let pcm = Format::Pcm {
        rate: 8000,
        channels: 1,
    };
    let alaw = Format::Alaw {
        rate: 8000,
        channels: 1,
    };
    let mulaw = Format::Mulaw {
        rate: 8000,
        channels: 1,
    };
    if is_late(kind) {
        Format::Auto
    } else if is_format_of(kind, input, pcm) {
        pcm
    } else if is_format_of(kind, input, alaw) {
        alaw
    } else {
        mulaw
    }
}

/// What is set of a port before its owner sets anything.
pub fn default_setting(kind: Kind, input: bool) -> PortSetting
    ensures { result ≡ default_setting kind input }
{
    PortSetting {
        definition: PortDefinition {
            input,
            format: default_format(kind, input),
            count: 2,
            size: BLOCK_BYTES,
        },
        supplier: Supplier::Unspecified,
    }
}
