//! The words of a play's line are read as its form: a part with what it sets, or a link.

ghost use Rattle.std.specs.Prelude.{◌≡◌, ◌∷◌, ◌≤◌, [], IfOk, IfSome, IfNone, List, ℕ, Option, Some, None, map, length, codes, option_map};
ghost use Rattle.std.specs.Fmt.{decimal};
ghost use Rattle.std.specs.List.{AllByRecursion};
ghost use Rattle.act_text.specs.Reading.{name_of, port_of};
ghost use Rattle.line_text.specs.Lists.{texts};
ghost use Rattle.script_lang.specs.PlayForms.{IsPartOf, IsFactor, AreTwoToEight};
ghost use Rattle.script_lang.specs.PlayScripts.{IsPlayFormOf};
ghost use Rattle.script_lang.specs.FileNames.{IsFileName};
ghost use Rattle.script_lang.specs.ReadPlayForms.{IsFileOf, number_within, weights_of, mixer_with, plain_part_of, word_part_of, number_part_of, part_with, link_of, long_form_of};
ghost use Rattle.script_lang.specs.declared.play_form.PlayForm.{PlayForm};

use crate::file_name::file_text;
use crate::play_form::PlayForm;
use crate::{FileName, OutOfMemory, PartForm, Weights};
use act_text::{name_in, port_in};
use line_text::small_number_in;
use omx_types::BLOCK_BYTES;
use std::alloc::Global;

/// The form of a play's line that words are.
pub fn play_form_in(alloc: Global, words: &[&[u8]]) -> Result<Option<PlayForm>, OutOfMemory>
    ensures some { IfOk result (λ found. IfSome found (IsPlayFormOf (texts words.now))) }
    ensures none { IfOk result (λ found. IfNone found ((form : PlayForm) → IsPlayFormOf (texts words.now) form → ⊥)) }
{
    match words {
        [verb, name] => Ok(short_form_in(verb, name)),
        [verb, one, two, rest @ ..] => more_form_in(alloc, verb, one, two, rest),
        _ => Ok(None),
    }
}

/// The form of three words or more.
fn more_form_in(
    alloc: Global,
    verb: &[u8],
    one: &[u8],
    two: &[u8],
    rest: &[&[u8]],
) -> Result<Option<PlayForm>, OutOfMemory>
    ensures some { IfOk result (λ found. IfSome found (IsPlayFormOf (verb.now ∷ one.now ∷ two.now ∷ texts rest.now))) }
    ensures none { IfOk result (λ found. IfNone found ((form : PlayForm) → IsPlayFormOf (verb.now ∷ one.now ∷ two.now ∷ texts rest.now) form → ⊥)) }
{
    if rest.is_empty() {
        word_form_in(alloc, verb, one, two)
    } else {
        long_form_in(alloc, verb, one, two, rest)
    }
}

fn short_form_in(verb: &[u8], name: &[u8]) -> Option<PlayForm>
    ensures is { result ≡ part_with (name_of name.now) (plain_part_of verb.now) }
    ensures some { IfSome result (IsPlayFormOf (verb.now ∷ name.now ∷ [])) }
{
    let Some(name) = name_in(name) else {
        return None;
    };
    let Some(form) = plain_part_of(verb) else {
        return None;
    };
    Some(PlayForm::Part { name, form })
}

fn plain_part_of(verb: &[u8]) -> Option<PartForm>
    ensures is { result ≡ plain_part_of verb.now }
    ensures some { IfSome result (IsPartOf verb.now []) }
{
    if verb == b"decoder".as_slice() {
        Some(PartForm::Decoder)
    } else if verb == b"alaw".as_slice() {
        Some(PartForm::Alaw)
    } else if verb == b"mulaw".as_slice() {
        Some(PartForm::Mulaw)
    } else {
        None
    }
}

fn word_form_in(
    alloc: Global,
    verb: &[u8],
    name: &[u8],
    word: &[u8],
) -> Result<Option<PlayForm>, OutOfMemory>
    ensures is { IfOk result (λ found. (file : Option (List ℕ)) × IsFileOf word.now file × (found ≡ part_with (name_of name.now) (word_part_of verb.now word.now file))) }
    ensures some { IfOk result (λ found. IfSome found (IsPlayFormOf (verb.now ∷ name.now ∷ word.now ∷ []))) }
{
    let Some(form) = word_part_in(alloc, verb, word)? else {
        return Ok(None);
    };
    let Some(name) = name_in(name) else {
        return Ok(None);
    };
    Ok(Some(PlayForm::Part { name, form }))
}

/// A part that has a file or a number.
fn word_part_in(alloc: Global, verb: &[u8], word: &[u8]) -> Result<Option<PartForm>, OutOfMemory>
    ensures is { IfOk result (λ found. (file : Option (List ℕ)) × IsFileOf word.now file × (found ≡ word_part_of verb.now word.now file)) }
    ensures some { IfOk result (λ found. IfSome found (IsPartOf verb.now (word.now ∷ []))) }
{
    match file_text(word) {
        Some(text) => file_part_in(alloc, verb, word, text),
        None => Ok(unfiled_part_in(verb, word)),
    }
}

fn file_part_in(
    alloc: Global,
    verb: &[u8],
    word: &[u8],
    text: &str,
) -> Result<Option<PartForm>, OutOfMemory>
    requires same { text.now ≡ word.now }
    requires named { IsFileName word.now }
    ensures is { IfOk result (λ found. found ≡ word_part_of verb.now word.now (Some word.now)) }
    ensures some { IfOk result (λ found. IfSome found (IsPartOf verb.now (word.now ∷ []))) }
{
    if verb == b"source".as_slice() {
        let file = FileName::of(alloc, text)?;
        Ok(Some(PartForm::Source(file)))
    } else if verb == b"late".as_slice() {
        let file = FileName::of(alloc, text)?;
        Ok(Some(PartForm::Late(file)))
    } else if verb == b"sink".as_slice() {
        let file = FileName::of(alloc, text)?;
        Ok(Some(PartForm::Sink(file)))
    } else {
        Ok(number_part_in(verb, word))
    }
}

/// A part whose word is no name of a file.
fn unfiled_part_in(verb: &[u8], word: &[u8]) -> Option<PartForm>
    ensures is { result ≡ word_part_of verb.now word.now None }
    ensures some { IfSome result (IsPartOf verb.now (word.now ∷ [])) }
{
    if verb == b"source".as_slice() || verb == b"late".as_slice() || verb == b"sink".as_slice() {
        None
    } else {
        number_part_in(verb, word)
    }
}

fn number_part_in(verb: &[u8], word: &[u8]) -> Option<PartForm>
    ensures is { result ≡ number_part_of verb.now word.now }
    ensures some { IfSome result (IsPartOf verb.now (word.now ∷ [])) }
{
    if verb == b"gain".as_slice() {
        match number_within(word, 0, 65_535) {
            Some(gain) => Some(PartForm::Gain(gain)),
            None => None,
        }
    } else if verb == b"splitter".as_slice() {
        match number_within(word, 2, 8) {
            Some(outputs) => Some(PartForm::Splitter(outputs)),
            None => None,
        }
    } else {
        None
    }
}

/// The number within limits that a word is.
fn number_within(word: &[u8], low: u32, high: u32) -> Option<u32>
    ensures is { result ≡ number_within low high word.now }
    ensures some { IfSome result (λ n. (word.now ≡ decimal n) × (low ≤ n) × (n ≤ high)) }
{
    let Some(n) = small_number_in(word) else {
        return None;
    };
    if low <= n && n <= high { Some(n) } else { None }
}

fn long_form_in(
    alloc: Global,
    verb: &[u8],
    one: &[u8],
    two: &[u8],
    rest: &[&[u8]],
) -> Result<Option<PlayForm>, OutOfMemory>
    ensures is { IfOk result (λ found. found ≡ long_form_of verb.now one.now two.now (texts rest.now)) }
    ensures some { IfOk result (λ found. IfSome found (IsPlayFormOf (verb.now ∷ one.now ∷ two.now ∷ texts rest.now))) }
{
    if verb == b"link".as_slice() {
        Ok(link_in(one, two, rest))
    } else if verb == b"mixer".as_slice() {
        mixer_in(alloc, one, two, rest)
    } else {
        Ok(None)
    }
}

fn link_in(one: &[u8], two: &[u8], rest: &[&[u8]]) -> Option<PlayForm>
    ensures is { result ≡ link_of one.now two.now (texts rest.now) }
    ensures some { IfSome result (IsPlayFormOf (codes "link" ∷ one.now ∷ two.now ∷ texts rest.now)) }
{
    match rest {
        [count, size] => link_of(one, two, count, size),
        _ => None,
    }
}

fn link_of(one: &[u8], two: &[u8], count: &[u8], size: &[u8]) -> Option<PlayForm>
    ensures is { result ≡ link_of one.now two.now (count.now ∷ size.now ∷ []) }
    ensures some { IfSome result (IsPlayFormOf (codes "link" ∷ one.now ∷ two.now ∷ count.now ∷ size.now ∷ [])) }
{
    let Some(output) = port_in(one) else {
        return None;
    };
    let Some(input) = port_in(two) else {
        return None;
    };
    let Some(count) = number_within(count, 1, 32) else {
        return None;
    };
    let Some(size) = number_within(size, 1, BLOCK_BYTES) else {
        return None;
    };
    Some(PlayForm::Link {
        output,
        input,
        count,
        size,
    })
}

fn mixer_in(
    alloc: Global,
    name: &[u8],
    inputs: &[u8],
    rest: &[&[u8]],
) -> Result<Option<PlayForm>, OutOfMemory>
    ensures is { IfOk result (λ found. found ≡ part_with (name_of name.now) (mixer_with (number_within 2 8 inputs.now) (weights_of (texts rest.now)))) }
    ensures some { IfOk result (λ found. IfSome found (IsPlayFormOf (codes "mixer" ∷ name.now ∷ inputs.now ∷ texts rest.now))) }
{
    let Some(name) = name_in(name) else {
        return Ok(None);
    };
    let Some(inputs) = number_within(inputs, 2, 8) else {
        return Ok(None);
    };
    if rest.len() != inputs as usize {
        return Ok(None);
    }
    let Some(weights) = weights_in(alloc, rest)? else {
        return Ok(None);
    };
    Ok(Some(PlayForm::Part {
        name,
        form: PartForm::Mixer(weights),
    }))
}

/// The weights that words are.
fn weights_in(alloc: Global, words: &[&[u8]]) -> Result<Option<Weights>, OutOfMemory>
    requires { AreTwoToEight (length words.now) }
    ensures is { IfOk result (λ found. found ≡ weights_of (texts words.now)) }
    ensures some { IfOk result (λ found. IfSome found (λ weights. (texts words.now ≡ map decimal weights) × AllByRecursion IsFactor weights)) }
{
    each_weight_in(alloc, words)
}

fn each_weight_in(alloc: Global, words: &[&[u8]]) -> Result<Option<Weights>, OutOfMemory>
    requires { AreTwoToEight (length words.now) }
    ensures { IfOk result (λ found. found ≡ weights_of (texts words.now)) }
{
    let mut weights = Vec::new(alloc);
    for word in words {
        let Some(weight) = number_within(word, 0, 65_535) else {
            return Ok(None);
        };
        weights.push(weight)?;
    }
    Ok(Some(Weights::from_vec(weights)))
}
