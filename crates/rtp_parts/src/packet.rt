//! Reading an RTP packet: which bytes are well formed, their fields, and where the payload is.

ghost use Rattle.std.specs.Prelude.{◌≡◌, ◌+◌, ◌*◌, ◌≤◌, ◌<◌, length, IfSome};
ghost use Rattle.rtp_parts.specs.Packets.{packet_in, is_well_formed, head_end, has_padding, padding};
ghost use Rattle.rtp_parts.specs.Steps.{packet_read};

use crate::companding::companding_of_type;
use byteorder::{BigEndian, ByteOrder};
use g711_law::Companding;

/// The bytes of the fixed header of RFC 3550.
const FIXED_HEADER: usize = 12;

/// The longest payload.
const MOST_PAYLOAD: usize = 4096;

/// What is read of a well-formed packet, and where its payload begins and ends.
#[derive(Clone, Copy)]
pub(crate) struct Fields {
    pub(crate) companding: Companding,
    pub(crate) source: u32,
    pub(crate) sequence: u16,
    pub(crate) timestamp: u32,
    pub(crate) from: usize,
    pub(crate) to: usize,
}

/// Reads a packet, where it is well formed.
pub(crate) fn read_packet(bytes: &[u8]) -> Option<Fields>
    ensures packet { packet_in bytes.now ≡ packet_read bytes.now result }
    ensures begins { IfSome result (λ fields. fields.from ≤ fields.to) }
    ensures inside { IfSome result (λ fields. fields.to ≤ length bytes.now) }
    ensures few { IfSome result (λ fields. fields.to ≤ fields.from + 4096) }
{
    if !is_well_formed(bytes) {
        return None;
    }
    match companding_of_type(bytes[1] % 128) {
        None => None,
        Some(companding) => Some(Fields {
            companding,
            source: BigEndian::read_u32(&bytes[8..]),
            sequence: BigEndian::read_u16(&bytes[2..]),
            timestamp: BigEndian::read_u32(&bytes[4..]),
            from: head_end(bytes),
            to: bytes.len() - padding(bytes),
        }),
    }
}

fn is_well_formed(bytes: &[u8]) -> bool
    ensures { result ≡ is_well_formed bytes.now }
{
    if bytes.len() < FIXED_HEADER {
        return false;
    }
    let version = bytes[0] / 64;
    let from = head_end(bytes);
    let padding = padding(bytes);
    version == 2
        && from <= bytes.len()
        && (!has_padding(bytes) || padding >= 1)
        && bytes.len() - from > padding
        && bytes.len() - from - padding <= MOST_PAYLOAD
}

fn has_padding(bytes: &[u8]) -> bool
    requires { 12 ≤ length bytes.now }
    ensures { result ≡ has_padding bytes.now }
{
    bytes[0] / 32 % 2 == 1
}

/// How many bytes of padding the last byte counts.
fn padding(bytes: &[u8]) -> usize
    requires { 12 ≤ length bytes.now }
    ensures { result ≡ padding bytes.now }
{
    if has_padding(bytes) {
        usize::from(bytes[bytes.len() - 1])
    } else {
        0
    }
}

/// The end of the contributing sources and the extension; it is past the end of the packet where they aren't inside.
fn head_end(bytes: &[u8]) -> usize
    requires { 12 ≤ length bytes.now }
    ensures inside { head_end bytes.now ≤ length bytes.now → result ≡ head_end bytes.now }
    ensures outside { length bytes.now < head_end bytes.now → length bytes.now < result }
{
    let sources = FIXED_HEADER + 4 * usize::from(bytes[0] % 16);
    if bytes[0] / 16 % 2 == 0 {
        return sources;
    }
    if bytes.len() < sources + 4 {
        return sources + 4;
    }
    let words = usize::from(bytes[sources + 2]) * 256 + usize::from(bytes[sources + 3]);
    sources + 4 + 4 * words
}
