//! The range of the numbers in a slice of 64-bit words, shown by a function that changes nothing.

ghost use Rattle.std.specs.Prelude.{◌<◌, All};

/// Each is a number of 64 bits.
pub(crate) fn law_of_words(words: &[u64])
    ensures { All (λ word. word < 18446744073709551616) words.now }
{
    let [first, rest @ ..] = words else {
        return;
    };
    // The proof learns from it the number's range.
    let _first = *first;
    law_of_words(rest);
}
