//! Words of hexadecimal digits, two for each byte, and the word for no bytes.

ghost use Rattle.std.specs.Prelude.{◌≡◌, ◌<◌, ◌+◌, ◌*◌, IfOk, IfSome, IsTrue, Some};
ghost use Rattle.script_lang.specs.Hex.{AreBytes, bytes_of, bytes_word, pairs_of, byte_with, is_hex, hex_value};

use crate::{OutOfMemory, Text};
use std::alloc::Global;

/// The bytes that a word of hexadecimal digits says.
pub fn bytes_in(alloc: Global, word: &[u8]) -> Result<Option<Text>, OutOfMemory>
    ensures is { IfOk result (λ found. found ≡ bytes_of word.now) }
    ensures some { IfOk result (λ found. IfSome found (λ bytes. word.now ≡ bytes_word bytes)) }
    ensures bytes { IfOk result (λ found. IfSome found AreBytes) }
{
    digits_in(alloc, word)
}

fn digits_in(alloc: Global, word: &[u8]) -> Result<Option<Text>, OutOfMemory>
    ensures { IfOk result (λ found. found ≡ bytes_of word.now) }
{
    if word.is_empty() {
        return Ok(None);
    }
    if word == b"-".as_slice() {
        let none = Text::of(alloc, b"")?;
        return Ok(Some(none));
    }
    pairs_in(alloc, word)
}

fn pairs_in(alloc: Global, digits: &[u8]) -> Result<Option<Text>, OutOfMemory>
    ensures { IfOk result (λ found. found ≡ pairs_of digits.now) }
{
    let mut bytes = Vec::new(alloc);
    let mut rest = digits;
    while rest.len() >= 2 {
        let Some(byte) = byte_of(rest[0], rest[1]) else {
            return Ok(None);
        };
        bytes.push(byte)?;
        let (_, behind) = rest.split_at(2);
        rest = behind;
    }
    if rest.is_empty() {
        Ok(Some(Text::from_vec(bytes)))
    } else {
        Ok(None)
    }
}

/// The byte of two digits.
fn byte_of(high: u8, low: u8) -> Option<u8>
    ensures { result ≡ byte_with high low }
{
    if is_hex(high) && is_hex(low) {
        Some(hex_value(high) * 16 + hex_value(low))
    } else {
        None
    }
}

fn is_hex(digit: u8) -> bool
    ensures { result ≡ is_hex digit }
{
    digit.is_ascii_digit() || (b'a'..=b'f').contains(&digit)
}

fn hex_value(digit: u8) -> u8
    requires { IsTrue (is_hex digit) }
    ensures value { result ≡ hex_value digit }
    ensures small { result < 16 }
{
    if digit <= b'9' {
        digit - b'0'
    } else {
        digit - 87
    }
}
