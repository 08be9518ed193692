//! The limits of values.

ghost use Rattle.std.specs.Prelude.{◌≡◌, ◌*◌, nat_lt, filter, find};
ghost use Rattle.std.specs.List.{list_all};
ghost use Rattle.il_machine.specs.Settings.{is_v112, is_within_limits, same_format, same_rate_and_channels, is_definition_of, is_good_value, is_value_of, are_fitting, is_known, formats_of};
ghost use Rattle.il_machine.specs.Kinds.{is_auto};
ghost use Rattle.il_machine.specs.Parameters.{is_too_large};
ghost use Rattle.omx_types.specs.Formats.{frame_bytes_of};

use crate::kinds;
use il_machine::PortSetting;
use omx_types::{BLOCK_BYTES, Format, Kind, Param, PortDefinition, Version};

/// Whether the version is that of OpenMAX IL 1.1.2.
pub fn is_v112(version: Version) -> bool
    ensures { result ≡ is_v112 version }
{
    version.major == 1 && version.minor == 1 && version.revision == 2 && version.step == 0
}

fn is_auto(format: Format) -> bool
    ensures { result ≡ is_auto format }
{
    matches!(format, Format::Auto)
}

fn is_known(format: Format) -> bool
    ensures { result ≡ is_known format }
{
    !is_auto(format)
}

/// Whether the rate and the channels are in their limits; a port that has no format yet is.
pub fn is_within_limits(format: Format) -> bool
    ensures { result ≡ is_within_limits format }
{
    let rate = format.rate();
    let channels = format.channels();
    is_auto(format) || 1 <= rate && rate <= 768_000 && 1 <= channels && channels <= 8
}

/// Whether the formats agree in coding, rate and channels.
pub fn is_same_format(a: Format, b: Format) -> bool
    ensures { result ≡ same_format a b }
{
    let same = a.rate() == b.rate() && a.channels() == b.channels();
    match (a, b) {
        (
            Format::Pcm {
                rate: _,
                channels: _,
            },
            Format::Pcm {
                rate: _,
                channels: _,
            },
        )
        | (
            Format::Alaw {
                rate: _,
                channels: _,
            },
            Format::Alaw {
                rate: _,
                channels: _,
            },
        )
        | (
            Format::Mulaw {
                rate: _,
                channels: _,
            },
            Format::Mulaw {
                rate: _,
                channels: _,
            },
        ) => same,
        (Format::Auto, Format::Auto) => true,
        _ => false,
    }
}

/// Whether the formats agree but for the coding.
pub fn has_same_rate_and_channels(a: Format, b: Format) -> bool
    ensures { result ≡ same_rate_and_channels a b }
{
    a.rate() == b.rate() && a.channels() == b.channels()
}

/// The bytes of one frame, also of a format outside the limits.
fn frame_bytes(format: Format) -> u64
    ensures { result ≡ frame_bytes_of format }
{
    match format {
        Format::Pcm { rate: _, channels } => 2 * channels as u64,
        Format::Alaw { rate: _, channels } | Format::Mulaw { rate: _, channels } => channels as u64,
        Format::Auto => 1,
    }
}

/// Whether so many frames have more bytes than there are.
pub fn has_more_bytes(frames: u64, format: Format, there: u64) -> bool
    ensures { result ≡ nat_lt there (frames * frame_bytes_of format) }
{
    frames as u128 * frame_bytes(format) as u128 > there as u128
}

/// Whether so many frames have more bytes than a file may have.
pub fn is_too_large(frames: u64, format: Format) -> bool
    ensures { result ≡ is_too_large frames format }
{
    has_more_bytes(frames, format, 134_217_728)
}

fn is_definition_of(input: bool, definition: PortDefinition) -> bool
    ensures { result ≡ is_definition_of input definition }
{
    let PortDefinition {
        input: is_input,
        format,
        count,
        size,
    } = definition;
    is_within_limits(format)
        && 1 <= count
        && count <= 32
        && 1 <= size
        && size <= BLOCK_BYTES
        && format.frame_bytes() <= size
        && is_input == input
}

/// Whether the numbers of a value for a port of this direction are in their limits.
pub fn is_good_value(input: bool, value: Param) -> bool
    ensures { result ≡ is_good_value input value }
{
    match value {
        Param::Port(definition) => is_definition_of(input, definition),
        Param::Supplier(_) => true,
        Param::Priority(priority) => priority <= 255,
        Param::Gain(factor) | Param::Weight(factor) => factor <= 65535,
    }
}

/// Whether the value is of the index's variant.
pub fn is_value_of(index: u32, value: Param) -> bool
    ensures { result ≡ is_value_of index value }
{
    match value {
        Param::Port(_) => index == 1,
        Param::Supplier(_) => index == 2,
        Param::Priority(_) => index == 3,
        Param::Gain(_) => index == 4,
        Param::Weight(_) => index == 5,
    }
}

/// The formats that are known are alike in rate and channels with this one.
fn all_alike(ports: &[PortSetting], format: Format) -> bool
    ensures { result ≡ list_all (λ f. same_rate_and_channels f format) (filter is_known (formats_of ports.now)) }
{
    ports
        .iter()
        .map(|port| port.definition.format)
        .filter(|known| is_known(*known))
        .all(|known| has_same_rate_and_channels(known, format))
}

fn all_of_format(ports: &[PortSetting], format: Format) -> bool
    ensures { result ≡ list_all (λ f. same_format f format) (filter is_known (formats_of ports.now)) }
{
    ports
        .iter()
        .map(|port| port.definition.format)
        .filter(|known| is_known(*known))
        .all(|known| is_same_format(known, format))
}

fn first_known(ports: &[PortSetting]) -> Option<Format>
    ensures { result ≡ find is_known (formats_of ports.now) }
{
    ports
        .iter()
        .map(|port| port.definition.format)
        .find(|format| is_known(*format))
}

/// Whether a component of the kind can work with these settings of its ports, as far as their formats are known.
pub fn are_fitting(kind: Kind, ports: &[PortSetting]) -> bool
    ensures { result ≡ are_fitting kind (filter is_known (formats_of ports.now)) }
{
    let Some(format) = first_known(ports) else {
        return true;
    };
    all_alike(ports, format) && (!kinds::is_splitter(kind) || all_of_format(ports, format))
}
