//! The names of components and of ports are read from words.

ghost use Rattle.std.specs.Prelude.{◌≡◌, ◌^◌, ◌<◌, ◌+◌, ◌≤◌, ◌↔◌, ℕ, List, take, drop, IfSome, IfNone, slice_index, length};
ghost use Rattle.std.specs.Fmt.{decimal};
ghost use Rattle.act_text.specs.Names.{IsName};
ghost use Rattle.act_text.specs.Ports.{IsPortName, port_word};
ghost use Rattle.act_text.specs.Reading.{name_of, port_of, before_dot, after_dot};
ghost use Rattle.line_text.specs.ReadNumbers.{number_below, small_number};

use crate::{Name, PortName};
use line_text::small_number_in;

/// The name that a word is.
pub fn name_in(word: &[u8]) -> Option<Name>
    ensures some { IfSome result (λ name. word.now ≡ name) }
    ensures named { IfSome result IsName }
    ensures is { result ≡ name_of word.now }
{
    Name::of(word)
}

/// The port that a word names.
pub fn port_in(word: &[u8]) -> Option<PortName>
    ensures some { IfSome result (λ port. word.now ≡ port_word port) }
    ensures named { IfSome result IsPortName }
    ensures is { result ≡ port_of word.now }
{
    let dot = dot_in(word);
    let Some(component) = name_in(&word[..dot]) else {
        return None;
    };
    if dot == word.len() {
        return None;
    }
    let (_, digits) = word.split_at(dot + 1);
    let Some(index) = small_number_in(digits) else {
        return None;
    };
    Some(PortName { component, index })
}

/// The place of the first dot, or the length.
fn dot_in(word: &[u8]) -> usize
    ensures within { result ≤ length word.now }
    ensures before { (k : ℕ) → k < result → slice_index word.now k ≡ 46 → ⊥ }
    ensures dot { result < length word.now → slice_index word.now result ≡ 46 }
{
    for (place, byte) in word.iter().enumerate() {
        if *byte == b'.' {
            return place;
        }
    }
    word.len()
}
