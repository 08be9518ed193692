//! The words of a trace's line are read as its form: an act, a header, or a component's kind.

ghost use Rattle.std.specs.Prelude.{◌≡◌, ◌∷◌, [], IfOk, IfSome, Some, length};
ghost use Rattle.act_text.specs.Reading.{name_of, port_of};
ghost use Rattle.act_text.specs.ReadActs.{act_of};
ghost use Rattle.line_text.specs.Lists.{texts};
ghost use Rattle.script_lang.specs.Forms.{form_words, flag_word, is_end, IsForm};
ghost use Rattle.script_lang.specs.ReadForms.{form_of, other_form_of, form_of_three, at_port_of, flag_of, act_form};

use crate::hex::bytes_in;
use crate::{OutOfMemory, Text, TraceForm};
use act_text::{TextAct, act_in, name_in, port_in};
use line_text::small_number_in;
use std::alloc::Global;

/// The form that the words of a line are.
pub fn form_in(alloc: Global, words: &[&[u8]]) -> Result<Option<TraceForm>, OutOfMemory>
    ensures is { IfOk result (λ found. found ≡ form_of (texts words.now)) }
    ensures some { IfOk result (λ found. IfSome found (λ form. texts words.now ≡ form_words form)) }
    ensures form { IfOk result (λ found. IfSome found IsForm) }
{
    let other = other_form_in(alloc, words)?;
    match other {
        Some(form) => Ok(Some(form)),
        None => Ok(act_form_in(words)),
    }
}

fn act_form_in(words: &[&[u8]]) -> Option<TraceForm>
    ensures is { result ≡ act_form (act_of (texts words.now)) }
    ensures some { IfSome result (λ form. texts words.now ≡ form_words form) }
    ensures form { IfSome result IsForm }
{
    let Some(act) = act_in(words) else {
        return None;
    };
    if is_end(&act) {
        None
    } else {
        Some(TraceForm::Act(act))
    }
}

fn is_end(act: &TextAct) -> bool
    ensures { result ≡ is_end act.now }
{
    match act {
        TextAct::End(_) => true,
        _ => false,
    }
}

/// A line that names a header, or what a component is made of.
fn other_form_in(alloc: Global, words: &[&[u8]]) -> Result<Option<TraceForm>, OutOfMemory>
    ensures is { IfOk result (λ found. found ≡ other_form_of (texts words.now)) }
    ensures some { IfOk result (λ found. IfSome found (λ form. texts words.now ≡ form_words form)) }
    ensures form { IfOk result (λ found. IfSome found IsForm) }
{
    match words {
        [verb, one, two] => form_of_three(alloc, verb, one, two),
        [verb, header, port, length] => Ok(form_of_four(verb, header, port, length)),
        [verb, header, port, bytes, flag] => form_of_five(alloc, verb, header, port, bytes, flag),
        _ => Ok(None),
    }
}

fn form_of_three(
    alloc: Global,
    verb: &[u8],
    one: &[u8],
    two: &[u8],
) -> Result<Option<TraceForm>, OutOfMemory>
    ensures is { IfOk result (λ found. found ≡ form_of_three verb.now one.now two.now) }
    ensures some { IfOk result (λ found. IfSome found (λ form. verb.now ∷ one.now ∷ two.now ∷ [] ≡ form_words form)) }
    ensures form { IfOk result (λ found. IfSome found IsForm) }
{
    if verb == b"get".as_slice() {
        let Some(component) = name_in(one) else {
            return Ok(None);
        };
        let kind = Text::of(alloc, two)?;
        Ok(Some(TraceForm::Get { component, kind }))
    } else {
        Ok(at_port_of(verb, one, two))
    }
}

/// A header at a port.
fn at_port_of(verb: &[u8], header: &[u8], port: &[u8]) -> Option<TraceForm>
    ensures is { result ≡ at_port_of verb.now (name_of header.now) (port_of port.now) }
    ensures some { IfSome result (λ form. verb.now ∷ header.now ∷ port.now ∷ [] ≡ form_words form) }
    ensures form { IfSome result IsForm }
{
    let Some(header) = name_in(header) else {
        return None;
    };
    let Some(port) = port_in(port) else {
        return None;
    };
    if verb == b"alloc".as_slice() {
        Some(TraceForm::Alloc { header, port })
    } else if verb == b"freebuf".as_slice() {
        Some(TraceForm::FreeBuf { header, port })
    } else if verb == b"ftb".as_slice() {
        Some(TraceForm::Ftb { header, port })
    } else {
        None
    }
}

fn form_of_four(verb: &[u8], header: &[u8], port: &[u8], length: &[u8]) -> Option<TraceForm>
    ensures is { result ≡ other_form_of (verb.now ∷ header.now ∷ port.now ∷ length.now ∷ []) }
    ensures some { IfSome result (λ form. verb.now ∷ header.now ∷ port.now ∷ length.now ∷ [] ≡ form_words form) }
    ensures form { IfSome result IsForm }
{
    if verb != b"usebuf".as_slice() {
        return None;
    }
    let Some(header) = name_in(header) else {
        return None;
    };
    let Some(port) = port_in(port) else {
        return None;
    };
    let Some(length) = small_number_in(length) else {
        return None;
    };
    if length <= 8192 {
        Some(TraceForm::UseBuf {
            header,
            port,
            length,
        })
    } else {
        None
    }
}

fn flag_in(word: &[u8]) -> Option<bool>
    ensures some { IfSome result (λ eos. word.now ≡ flag_word eos) }
    ensures is { result ≡ flag_of word.now }
{
    if word == b"eos".as_slice() {
        Some(true)
    } else if word == b"-".as_slice() {
        Some(false)
    } else {
        None
    }
}

fn form_of_five(
    alloc: Global,
    verb: &[u8],
    header: &[u8],
    port: &[u8],
    bytes: &[u8],
    flag: &[u8],
) -> Result<Option<TraceForm>, OutOfMemory>
    ensures is { IfOk result (λ found. found ≡ other_form_of (verb.now ∷ header.now ∷ port.now ∷ bytes.now ∷ flag.now ∷ [])) }
    ensures some { IfOk result (λ found. IfSome found (λ form. verb.now ∷ header.now ∷ port.now ∷ bytes.now ∷ flag.now ∷ [] ≡ form_words form)) }
    ensures form { IfOk result (λ found. IfSome found IsForm) }
{
    if verb != b"etb".as_slice() {
        return Ok(None);
    }
    let Some(header) = name_in(header) else {
        return Ok(None);
    };
    let Some(port) = port_in(port) else {
        return Ok(None);
    };
    let Some(bytes) = bytes_in(alloc, bytes)? else {
        return Ok(None);
    };
    let Some(eos) = flag_in(flag) else {
        return Ok(None);
    };
    Ok(Some(TraceForm::Etb {
        header,
        port,
        bytes,
        eos,
    }))
}
