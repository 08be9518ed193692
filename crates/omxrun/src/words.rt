//! The commands, the parsing of words into one of them, and which words are names of files.

ghost use Rattle.std.specs.Prelude.{◌≡◌, ◌<◌, ◌↔◌, ◌^◌, ℕ, [], ◌∷◌, map, string_bytes, IsTrue, IfSome, IfNone, codes};
ghost use Rattle.std.specs.Fmt.{decimal};
ghost use Rattle.omxrun.specs.Names.{IsName};
ghost use Rattle.omxrun.specs.Words.{AreWordsOf, AreNoForm, AreNames, IsPlay, IsMake, ArePair, asked_by};

use line_text::{one_numeral, read_u64};
use script_lang::FILE_NAME_BYTES;

/// What the words ask for.
#[derive(Clone, Copy)]
pub enum Command<'a> {
    Trace {
        script: &'a str,
    },
    Play {
        script: &'a str,
        workers: u64,
        log: &'a str,
    },
    Make {
        seed: u64,
        frames: u64,
        folder: &'a str,
    },
    Clock {
        script: &'a str,
    },
    Pack {
        input: &'a str,
        output: &'a str,
    },
    Unpack {
        input: &'a str,
        output: &'a str,
    },
    Audit {
        script: &'a str,
        log: &'a str,
    },
}

/// What the words ask for, where they are one of the forms.
pub fn command_of(words: &[String]) -> Option<Command<'_>>
    ensures some { IfSome result (λ command. AreWordsOf (map string_bytes words.now) (asked_by command)) }
    ensures none { IfNone result (AreNoForm (map string_bytes words.now)) }
{
    match words {
        [verb, script] => two_of(verb, script),
        [verb, first, second] => three_of(verb, first, second),
        [verb, first, second, third] => four_of(verb, first, second, third),
        _ => None,
    }
}

fn two_of<'a>(verb: &str, script: &'a str) -> Option<Command<'a>>
    ensures some { IfSome result (λ command. AreWordsOf (verb.now ∷ script.now ∷ []) (asked_by command)) }
    ensures none { IfNone result (AreNoForm (verb.now ∷ script.now ∷ [])) }
{
    if !is_name(script) {
        None
    } else if verb == "trace" {
        Some(Command::Trace { script })
    } else if verb == "clock" {
        Some(Command::Clock { script })
    } else {
        None
    }
}

fn three_of<'a>(verb: &str, first: &'a str, second: &'a str) -> Option<Command<'a>>
    ensures some { IfSome result (λ command. AreWordsOf (verb.now ∷ first.now ∷ second.now ∷ []) (asked_by command)) }
    ensures none { IfNone result (AreNoForm (verb.now ∷ first.now ∷ second.now ∷ [])) }
{
    if verb == "audit" {
        audit_of(first, second)
    } else if !are_pair(first, second) {
        None
    } else if verb == "pack" {
        Some(Command::Pack {
            input: first,
            output: second,
        })
    } else if verb == "unpack" {
        Some(Command::Unpack {
            input: first,
            output: second,
        })
    } else {
        None
    }
}

fn audit_of<'a>(script: &'a str, log: &'a str) -> Option<Command<'a>>
    ensures some { IfSome result (λ command. AreWordsOf (codes "audit" ∷ script.now ∷ log.now ∷ []) (asked_by command)) }
    ensures none { IfNone result (AreNoForm (codes "audit" ∷ script.now ∷ log.now ∷ [])) }
{
    if are_names(script, log) {
        Some(Command::Audit { script, log })
    } else {
        None
    }
}

fn four_of<'a>(verb: &str, first: &'a str, second: &str, third: &'a str) -> Option<Command<'a>>
    ensures some { IfSome result (λ command. AreWordsOf (verb.now ∷ first.now ∷ second.now ∷ third.now ∷ []) (asked_by command)) }
    ensures none { IfNone result (AreNoForm (verb.now ∷ first.now ∷ second.now ∷ third.now ∷ [])) }
{
    if verb == "play" {
        play_of(first, second, third)
    } else if verb == "make" {
        make_of(first, second, third)
    } else {
        None
    }
}

fn play_of<'a>(script: &'a str, workers: &str, log: &'a str) -> Option<Command<'a>>
    ensures some { IfSome result (λ command. AreWordsOf (codes "play" ∷ script.now ∷ workers.now ∷ log.now ∷ []) (asked_by command)) }
    ensures none { IfNone result (AreNoForm (codes "play" ∷ script.now ∷ workers.now ∷ log.now ∷ [])) }
{
    match number_in(workers) {
        Some(workers) => {
            if is_play(script, workers, log) {
                Some(Command::Play {
                    script,
                    workers,
                    log,
                })
            } else {
                None
            }
        }
        None => None,
    }
}

fn make_of<'a>(seed: &str, frames: &str, folder: &'a str) -> Option<Command<'a>>
    ensures some { IfSome result (λ command. AreWordsOf (codes "make" ∷ seed.now ∷ frames.now ∷ folder.now ∷ []) (asked_by command)) }
    ensures none { IfNone result (AreNoForm (codes "make" ∷ seed.now ∷ frames.now ∷ folder.now ∷ [])) }
{
    match (number_in(seed), number_in(frames)) {
        (Some(seed), Some(frames)) => {
            if is_make(seed, frames, folder) {
                Some(Command::Make {
                    seed,
                    frames,
                    folder,
                })
            } else {
                None
            }
        }
        _ => None,
    }
}

/// Whether a word can name a file.
pub fn is_name(word: &str) -> bool
    ensures { IsTrue result ↔ IsName word.now }
{
    !word.is_empty()
        && word.len() <= FILE_NAME_BYTES
        && word.as_bytes().iter().all(|byte| *byte > 32)
}

fn is_play(script: &str, workers: u64, log: &str) -> bool
    ensures { IsTrue result ↔ IsPlay script.now workers log.now }
{
    is_name(script) && workers <= 8 && is_name(log) && log != script
}

fn are_names(script: &str, log: &str) -> bool
    ensures { IsTrue result ↔ AreNames script.now log.now }
{
    is_name(script) && is_name(log)
}

fn are_pair(input: &str, output: &str) -> bool
    ensures { IsTrue result ↔ ArePair input.now output.now }
{
    is_name(input) && is_name(output) && output != input
}

fn is_make(seed: u64, frames: u64, folder: &str) -> bool
    ensures { IsTrue result ↔ IsMake seed frames folder.now }
{
    // Any seed will do.
    let _any_seed = seed;
    frames <= 33_000_000 && is_name(folder) && folder.len() <= 1016
}

/// The number that a word writes in decimal digits.
fn number_in(word: &str) -> Option<u64>
    ensures some { IfSome result (λ n. word.now ≡ decimal n) }
    ensures fits { IfSome result (λ n. n < 2 ^ 64) }
    ensures none { IfNone result ((n : ℕ) → n < 2 ^ 64 → word.now ≡ decimal n → ⊥) }
{
    one_numeral();
    match read_u64(word.as_bytes()) {
        Ok(n) => Some(n),
        Err(_) => None,
    }
}
