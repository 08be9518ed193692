//! Decimal numbers of 64 bits are read, with the place of a fault, and written; each has one numeral.

ghost use Rattle.std.specs.Prelude.{◌≡◌, ℕ, ◌+◌, ◌-◌, ◌*◌, ◌^◌, ◌<◌, ◌≤◌, ◌↔◌, List, length, take, drop, slice_index, IsTrue, IfOk, IfErr};
ghost use Rattle.std.specs.Option.{SomeIff};
ghost use Rattle.std.specs.Fmt.{decimal};
ghost use Rattle.std.specs.Str.Parse.{digits_value};
ghost use Rattle.line_text.specs.Numbers.{IsDigit, CanStand, IsNumber, IsFaultAt};

use crate::BadWord;

/// The number that a word writes. A fault tells the first byte that can't stand there, or the length where
/// the word is empty or the number is above `u64::MAX`.
pub fn read_u64(word: &[u8]) -> Result<u64, BadWord>
    ensures number { IfOk result (IsNumber word.now) }
    ensures fault { IfErr result (λ bad. IsFaultAt word.now bad.place) }
{
    let end = numeral_end(word);
    if end < word.len() || word.is_empty() {
        return Err(BadWord { place: end });
    }
    match value_of(word) {
        Some(value) => Ok(value),
        None => Err(BadWord { place: word.len() }),
    }
}

/// Writes the decimal digits of a number at the front, and answers how many they are.
pub fn put_number(n: u64, buf: &mut [u8; 20]) -> usize
    ensures count { result ≡ length (decimal n) }
    ensures digits { take result buf.new ≡ decimal n }
    ensures rest { drop result buf.new ≡ drop result buf.old }
{
    let mut digits = [0u8; 20];
    let start = put_digits(n, &mut digits);
    let count = 20 - start;
    buf[..count].copy_from_slice(&digits[start..]);
    count
}

/// Each number has one word: the digits that `put_number` writes. So what it wrote is read back.
pub fn one_numeral()
    ensures reads_back { (n : ℕ) → n < 2 ^ 64 → IsNumber (decimal n) n }
    ensures one { (word : List ℕ) (n : ℕ) → IsNumber word n → word ≡ decimal n }
{}

/// The place of the first byte that can't stand in a number, or the length.
fn numeral_end(word: &[u8]) -> usize
    ensures within { result ≤ length word.now }
    ensures before { (k : ℕ) → k < result → CanStand word.now k }
    ensures misplaced { result < length word.now → ¬ (CanStand word.now result) }
{
    for (place, byte) in word.iter().enumerate() {
        if !byte.is_ascii_digit() || (place > 0 && word[0] == b'0') {
            return place;
        }
    }
    word.len()
}

/// The number that digits write, where it fits.
fn value_of(word: &[u8]) -> Option<u64>
    requires { (k : ℕ) → k < length word.now → IsDigit (slice_index word.now k) }
    ensures { SomeIff result (digits_value 10 word.now < 2 ^ 64) (digits_value 10 word.now) }
{
    let mut value: u64 = 0;
    for byte in word {
        match with_digit(value, *byte) {
            Some(longer) => value = longer,
            None => return None,
        }
    }
    Some(value)
}

/// The number with one more digit at its end, where it fits.
fn with_digit(value: u64, byte: u8) -> Option<u64>
    requires { IsDigit byte }
    ensures { SomeIff result (value * 10 + (byte - 48) < 2 ^ 64) (value * 10 + (byte - 48)) }
{
    match value.checked_mul(10) {
        Some(tens) => tens.checked_add(u64::from(byte - b'0')),
        None => None,
    }
}

/// Writes the decimal digits of a number at the end, and answers where they begin.
fn put_digits(n: u64, buf: &mut [u8; 20]) -> usize
    ensures within { result ≤ 20 }
    ensures digits { drop result buf.new ≡ decimal n }
{
    let mut start = 20;
    let mut rest = n;
    while rest >= 10 {
        start -= 1;
        buf[start] = b'0' + (rest % 10) as u8;
        rest /= 10;
    }
    start -= 1;
    buf[start] = b'0' + rest as u8;
    start
}
