//! Names of components, held in place and of at most 16 bytes, and of their ports, by index.

ghost use Rattle.std.specs.Prelude.{◌≡◌, ◌↔◌, ℕ, ◌<◌, ◌≤◌, List, length, take, drop, IfSome, IfNone, IsTrue, IsFalse};
ghost use Rattle.std.specs.List.{list_all};
ghost use Rattle.act_text.specs.Names.{is_name, is_name_byte};

use std::marker::Model;

/// The name of a component, held in place.
#[derive(Clone, Copy, PartialEq, Eq)]
pub struct Name {
    bytes: [u8; 16],
    len: usize,
}

impl Model for Name {
    ghost use Rattle.std.specs.Prelude.{◌≡◌, ◌-◌, ◌≤◌, ◌++◌, ℕ, List, length, take, drop, replicate, IsTrue};
    ghost use Rattle.std.proofs.Common.{length-take-le};
    ghost use Rattle.act_text.specs.Names.{is_name, is_name_byte};

    ghost Value = { List ℕ };

    ghost view = { λ name. take name.len name.bytes };

    ghost invariant = { λ name. (name.len ≤ length name.bytes) × (length name.bytes ≡ 16) × (drop name.len name.bytes ≡ replicate (16 - name.len) 0) × IsTrue (is_name (take name.len name.bytes)) };

    ghost inverse = { λ name. record { bytes = name ++ replicate (16 - length name) 0; len = length name } };

    ghost use Rattle.act_text.specs.Padded.{padded-again};

    ghost inverse_ok = { λ s h i. record {
      bytes = padded-again s.bytes s.len h.0 h.2 i;
      len = length-take-le s.len s.bytes h.0 i;
    } };
}

impl Name {
    /// The name that a word is.
    pub fn of(word: &[u8]) -> Option<Name>
        ensures some { IfSome result (λ name. name ≡ word.now) }
        ensures named { IfSome result (λ name. IsTrue (is_name name)) }
        ensures none { IfNone result (IsFalse (is_name word.now)) }
    {
        if !is_name(word) {
            return None;
        }
        let mut bytes = [0u8; 16];
        bytes[..word.len()].copy_from_slice(word);
        Some(Name {
            bytes,
            len: word.len(),
        })
    }

    /// The name as it is written.
    pub fn as_bytes(&self) -> &[u8]
        ensures bytes { result.now ≡ self.now }
        ensures named { IsTrue (is_name self.now) }
    {
        &self.bytes[..self.len]
    }
}

/// The name of a component's port.
#[derive(Clone, Copy, PartialEq, Eq)]
pub struct PortName {
    pub component: Name,
    pub index: u32,
}

fn is_name(word: &[u8]) -> bool
    ensures { result ≡ is_name word.now }
{
    let Some((first, rest)) = word.split_first() else {
        return false;
    };
    first.is_ascii_lowercase() && rest.len() <= 15 && are_name_bytes(rest)
}

fn is_name_byte(byte: u8) -> bool
    ensures { result ≡ is_name_byte byte }
{
    byte.is_ascii_lowercase() || byte.is_ascii_digit() || byte == b'_'
}

fn are_name_bytes(bytes: &[u8]) -> bool
    ensures { result ≡ list_all is_name_byte bytes.now }
{
    bytes.iter().all(|byte| is_name_byte(*byte))
}
