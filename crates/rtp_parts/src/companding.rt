//! The two compandings of G.711, by which RTP carries 8,000 frames a second of one channel: the payload type, the format and
//! the code of silence of each.

ghost use Rattle.std.specs.Prelude.{◌≡◌};
ghost use Rattle.rtp_parts.specs.Packets.{type_of_companding, companding_of_type, format_of_companding, companding_of_format, same_companding, silence_of};

use g711_law::{Companding, alaw_encode, mulaw_encode};
use omx_types::Format;

/// The payload type of RFC 3551.
pub(crate) fn payload_type(companding: Companding) -> u8
    ensures { result ≡ type_of_companding companding }
{
    match companding {
        Companding::MuLaw => 0,
        Companding::ALaw => 8,
    }
}

/// The companding of a payload type of RFC 3551.
pub(crate) fn companding_of_type(number: u8) -> Option<Companding>
    ensures { result ≡ companding_of_type number }
{
    match number {
        0 => Some(Companding::MuLaw),
        8 => Some(Companding::ALaw),
        _ => None,
    }
}

pub(crate) fn format_of(companding: Companding) -> Format
    ensures { result ≡ format_of_companding companding }
{
    match companding {
        Companding::MuLaw => Format::Mulaw {
            rate: 8000,
            channels: 1,
        },
        Companding::ALaw => Format::Alaw {
            rate: 8000,
            channels: 1,
        },
    }
}

/// The companding of a format that RTP carries.
pub(crate) fn companding_of(format: Format) -> Option<Companding>
    ensures { result ≡ companding_of_format format }
{
    match format {
        Format::Mulaw {
            rate: 8000,
            channels: 1,
        } => Some(Companding::MuLaw),
        Format::Alaw {
            rate: 8000,
            channels: 1,
        } => Some(Companding::ALaw),
        _ => None,
    }
}

pub(crate) fn is_same(one: Companding, other: Companding) -> bool
    ensures { result ≡ same_companding one other }
{
    match one {
        Companding::MuLaw => matches!(other, Companding::MuLaw),
        Companding::ALaw => matches!(other, Companding::ALaw),
    }
}

/// The code of silence.
pub(crate) fn silence_of(companding: Companding) -> u8
    ensures { result ≡ silence_of companding }
{
    match companding {
        Companding::MuLaw => mulaw_encode(0),
        Companding::ALaw => alaw_encode(0),
    }
}
