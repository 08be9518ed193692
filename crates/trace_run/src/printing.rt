//! The text of a line with its answer.

ghost use Rattle.std.specs.Prelude.{◌≡◌, ◌++◌, codes, OnOk, Some, IsSome, IsSomeAnd};
ghost use Rattle.std.specs.Fmt.{decimal};
ghost use Rattle.line_text.specs.Lists.{spaced};
ghost use Rattle.script_lang.specs.Forms.{flag_word};
ghost use Rattle.line_text.specs.Numbers.{hex_of, hex_of_byte};
ghost use Rattle.script_lang.specs.Hex.{bytes_word};
ghost use Rattle.il_machine.specs.Components.{has_eos};
ghost use Rattle.trace_run.specs.Replying.{LineReply, Emptied, Filled, line_reply_words};
ghost use Rattle.trace_run.specs.Standing.{Means, IsMeant};

use crate::OutOfMemory;
use crate::desk::Desk;
use crate::reply::LineAnswer;
use crate::slots::Slot;
use act_text::put_reply;
use line_text::{put_hex, put_number};

/// Appends `N: ACT = `.
pub fn put_head(number: u64, act: &[u8], out: &mut Vec<u8>) -> Result<(), OutOfMemory>
    ensures { OnOk result (out.new.items ≡ out.old.items ++ (decimal number ++ codes ": " ++ act.now ++ codes " = ")) }
{
    let mut digits = [0u8; 20];
    let count = put_number(number, &mut digits);
    out.extend_from_slice(&digits[..count])?;
    out.extend_from_slice(b": ")?;
    out.extend_from_slice(act)?;
    out.extend_from_slice(b" = ")
}

/// Appends the answer, and ends the line. The desk is as it stands after the line's acts.
pub fn put_end(answer: LineAnswer, desk: &Desk, out: &mut Vec<u8>) -> Result<(), OutOfMemory>
    requires { IsMeant desk.now.slots.items answer }
    ensures { (reply : LineReply) → Means desk.now.slots.items answer reply → OnOk result (out.new.items ≡ out.old.items ++ (spaced (line_reply_words reply) ++ codes "\n")) }
{
    put_answer(answer, desk.slots.as_slice(), out)?;
    out.extend_from_slice(b"\n")
}

fn put_answer(answer: LineAnswer, slots: &[Slot], out: &mut Vec<u8>) -> Result<(), OutOfMemory>
    requires { IsMeant slots.now answer }
    ensures { (reply : LineReply) → Means slots.now answer reply → OnOk result (out.new.items ≡ out.old.items ++ spaced (line_reply_words reply)) }
{
    match answer {
        LineAnswer::Plain(reply) => put_reply(&reply, out),
        LineAnswer::Emptied { place } => put_emptied(&slots[place], out),
        LineAnswer::Filled { place } => put_filled(&slots[place], out),
    }
}

fn put_emptied(slot: &Slot, out: &mut Vec<u8>) -> Result<(), OutOfMemory>
    ensures { OnOk result (out.new.items ≡ out.old.items ++ spaced (line_reply_words (Emptied slot.now.name))) }
{
    out.extend_from_slice(b"empty ")?;
    out.extend_from_slice(slot.name.as_bytes())
}

fn put_filled(slot: &Slot, out: &mut Vec<u8>) -> Result<(), OutOfMemory>
    requires { IsSome slot.now.hand }
    ensures { OnOk result (IsSomeAnd slot.now.hand (λ header.
        out.new.items ≡ out.old.items ++ spaced (line_reply_words (Filled slot.now.name header.held.content (has_eos header.held.flags))))) }
{
    out.extend_from_slice(b"fill ")?;
    out.extend_from_slice(slot.name.as_bytes())?;
    out.extend_from_slice(b" ")?;
    let Some(header) = &slot.hand else {
        unreachable!()
    };
    put_bytes(header.content(), out)?;
    out.extend_from_slice(b" ")?;
    put_flag(header.flags() % 2 == 1, out)
}

fn put_flag(eos: bool, out: &mut Vec<u8>) -> Result<(), OutOfMemory>
    ensures { OnOk result (out.new.items ≡ out.old.items ++ flag_word eos) }
{
    if eos {
        out.extend_from_slice(b"eos")
    } else {
        out.extend_from_slice(b"-")
    }
}

fn put_bytes(bytes: &[u8], out: &mut Vec<u8>) -> Result<(), OutOfMemory>
    ensures { OnOk result (out.new.items ≡ out.old.items ++ bytes_word bytes.now) }
{
    match bytes {
        [] => out.extend_from_slice(b"-"),
        [_, ..] => put_digits(bytes, out),
    }
}

fn put_digits(bytes: &[u8], out: &mut Vec<u8>) -> Result<(), OutOfMemory>
    ensures { OnOk result (out.new.items ≡ out.old.items ++ hex_of bytes.now) }
{
    out.reserve(2 * bytes.len())?;
    for byte in bytes {
        put_byte(*byte, out)?;
    }
    Ok(())
}

fn put_byte(byte: u8, out: &mut Vec<u8>) -> Result<(), OutOfMemory>
    ensures { OnOk result (out.new.items ≡ out.old.items ++ hex_of_byte byte) }
{
    let mut digits = [0u8; 2];
    put_hex(&[byte], &mut digits);
    out.extend_from_slice(&digits)
}
