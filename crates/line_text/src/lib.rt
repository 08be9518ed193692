//! Lines of a script, their words, and the numbers that words are. Nothing here takes memory.
#![tactic(auto)]

mod hex;
mod line_words;
mod lines;
mod numbers;
mod read_numbers;
mod script;
mod words;

pub use hex::put_hex;
pub use line_words::LineWords;
pub use lines::{feed_in, next_line};
pub use numbers::{one_numeral, put_number, read_u64};
pub use read_numbers::{number_in, small_number_in};
pub use script::{is_first_line, is_skipped};
pub use words::{BadWord, next_word};
