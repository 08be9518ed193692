//! Words are read as numbers of 64 or 32 bits, or are none.

ghost use Rattle.std.specs.Prelude.{◌≡◌, ◌^◌, IfSome};
ghost use Rattle.std.specs.Fmt.{decimal};
ghost use Rattle.line_text.specs.ReadNumbers.{number_below, small_number};

use crate::{one_numeral, read_u64};

/// The number below 2^64 that a word is.
pub fn number_in(word: &[u8]) -> Option<u64>
    ensures some { IfSome result (λ n. word.now ≡ decimal n) }
    ensures is { result ≡ number_below (2 ^ 64) word.now }
{
    one_numeral();
    match read_u64(word) {
        Ok(n) => Some(n),
        Err(_) => None,
    }
}

/// The number below 2^32 that a word is.
pub fn small_number_in(word: &[u8]) -> Option<u32>
    ensures some { IfSome result (λ n. word.now ≡ decimal n) }
    ensures is { result ≡ small_number word.now }
{
    one_numeral();
    match read_u64(word) {
        Ok(n) => u32::try_from(n).ok(),
        Err(_) => None,
    }
}
