//! The words of a text, which are bytes, port names or numbers, are appended with one space between.

ghost use Rattle.std.specs.Prelude.{◌≡◌, ◌∷◌, ◌++◌, [], ℕ, List, take, length, OnOk, OnErr};
ghost use Rattle.std.specs.Fmt.{decimal};
ghost use Rattle.act_text.specs.Ports.{port_word};
ghost use Rattle.act_text.specs.Words.{word_bytes, put_words, IsGrown};
ghost use Rattle.line_text.specs.Lists.{after_spaces, spaced};

use crate::{OutOfMemory, PortName};
use line_text::put_number;

/// A word of a text.
#[derive(Clone, Copy)]
pub enum Word<'a> {
    Bytes(&'a [u8]),
    Port(&'a PortName),
    Number(u64),
}

/// The word of a number, in decimal.
pub fn number(number: u32) -> Word<'static>
    ensures { word_bytes result ≡ decimal number }
{
    Word::Number(u64::from(number))
}

/// Appends words, parted by one space.
pub fn put_words(words: &[Word], out: &mut Vec<u8>) -> Result<(), OutOfMemory>
    ensures ok { OnOk result (out.new.items ≡ out.old.items ++ spaced (put_words words.now)) }
    ensures err { OnErr result (IsGrown out.old.items out.new.items) }
{
    match words {
        [] => Ok(()),
        [first, rest @ ..] => {
            put_word(first, out)?;
            put_after_spaces(rest, out)
        }
    }
}

/// Appends a space before each word.
fn put_after_spaces(words: &[Word], out: &mut Vec<u8>) -> Result<(), OutOfMemory>
    ensures ok { OnOk result (out.new.items ≡ out.old.items ++ after_spaces (put_words words.now)) }
    ensures err { OnErr result (IsGrown out.old.items out.new.items) }
{
    for word in words {
        put_bytes(b" ", out)?;
        put_word(word, out)?;
    }
    Ok(())
}

fn put_word(word: &Word, out: &mut Vec<u8>) -> Result<(), OutOfMemory>
    ensures ok { OnOk result (out.new.items ≡ out.old.items ++ word_bytes word.now) }
    ensures err { OnErr result (IsGrown out.old.items out.new.items) }
{
    match word {
        Word::Bytes(bytes) => put_bytes(bytes, out),
        Word::Port(port) => put_port(port, out),
        Word::Number(number) => put_digits(*number, out),
    }
}

fn put_port(port: &PortName, out: &mut Vec<u8>) -> Result<(), OutOfMemory>
    ensures ok { OnOk result (out.new.items ≡ out.old.items ++ port_word port.now) }
    ensures err { OnErr result (IsGrown out.old.items out.new.items) }
{
    put_bytes(port.component.as_bytes(), out)?;
    put_bytes(b".", out)?;
    put_digits(u64::from(port.index), out)
}

fn put_digits(number: u64, out: &mut Vec<u8>) -> Result<(), OutOfMemory>
    ensures ok { OnOk result (out.new.items ≡ out.old.items ++ decimal number) }
    ensures err { OnErr result (IsGrown out.old.items out.new.items) }
{
    let mut digits = [0u8; 20];
    let count = put_number(number, &mut digits);
    put_bytes(&digits[..count], out)
}

fn put_bytes(bytes: &[u8], out: &mut Vec<u8>) -> Result<(), OutOfMemory>
    ensures ok { OnOk result (out.new.items ≡ out.old.items ++ bytes.now) }
    ensures err { OnErr result (IsGrown out.old.items out.new.items) }
{
    out.extend_from_slice(bytes)
}
