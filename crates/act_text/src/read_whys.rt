//! Why an act changed nothing is read from the words after `idle`.

ghost use Rattle.std.specs.Prelude.{◌≡◌, ◌∷◌, [], ℕ, List, IfSome, length, codes};
ghost use Rattle.std.specs.Fmt.{decimal};
ghost use Rattle.line_text.specs.ReadNumbers.{small_number};
ghost use Rattle.act_text.specs.Replies.{why_words, IsWhy};
ghost use Rattle.act_text.specs.ReadReplies.{nothing_of, not_of, why_of_two, numbers_why, port_why, wanting_why, why_of_three, why_of};
ghost use Rattle.line_text.specs.Lists.{texts};

use crate::TextWhy;
use crate::parts::port_in;
use crate::read_acts::state_in;
use line_text::small_number_in;

/// What there is none of.
fn nothing_in(what: &[u8]) -> Option<TextWhy>
    ensures some { IfSome result (λ why. codes "no" ∷ what.now ∷ [] ≡ why_words why) }
    ensures why { IfSome result IsWhy }
    ensures is { result ≡ nothing_of what.now }
{
    if what == b"command".as_slice() {
        Some(TextWhy::NoCommand)
    } else if what == b"block".as_slice() {
        Some(TextWhy::NoBlock)
    } else if what == b"number".as_slice() {
        Some(TextWhy::NoNumber)
    } else if what == b"header".as_slice() {
        Some(TextWhy::NoHeader)
    } else if what == b"waiter".as_slice() {
        Some(TextWhy::NoWaiter)
    } else if what == b"victim".as_slice() {
        Some(TextWhy::NoVictim)
    } else {
        None
    }
}

fn why_of_two(one: &[u8], two: &[u8]) -> Option<TextWhy>
    ensures some { IfSome result (λ why. one.now ∷ two.now ∷ [] ≡ why_words why) }
    ensures why { IfSome result IsWhy }
    ensures is { result ≡ why_of_two one.now two.now }
{
    if one == b"no".as_slice() {
        nothing_in(two)
    } else if one == b"pending".as_slice() {
        let Some(state) = state_in(two) else {
            return None;
        };
        Some(TextWhy::Pending(state))
    } else if one == b"held".as_slice() {
        let Some(port) = small_number_in(two) else {
            return None;
        };
        Some(TextWhy::PortHeld(port))
    } else if one == b"not".as_slice() {
        not_in(two)
    } else {
        None
    }
}

/// What isn't so.
fn not_in(what: &[u8]) -> Option<TextWhy>
    ensures some { IfSome result (λ why. codes "not" ∷ what.now ∷ [] ≡ why_words why) }
    ensures why { IfSome result IsWhy }
    ensures is { result ≡ not_of what.now }
{
    if what == b"supplier".as_slice() {
        Some(TextWhy::NotSupplier)
    } else if what == b"leaving".as_slice() {
        Some(TextWhy::NotLeaving)
    } else if what == b"running".as_slice() {
        Some(TextWhy::ComponentNotRunning)
    } else {
        None
    }
}

/// A why of two numbers.
fn numbers_why(what: &[u8], first: u32, second: u32) -> Option<TextWhy>
    ensures some { IfSome result (λ why. what.now ∷ decimal first ∷ decimal second ∷ [] ≡ why_words why) }
    ensures why { IfSome result IsWhy }
    ensures is { result ≡ numbers_why what.now first second }
{
    if what == b"short".as_slice() {
        Some(TextWhy::Short {
            have: first,
            need: second,
        })
    } else if what == b"enough".as_slice() {
        Some(TextWhy::Enough {
            have: first,
            need: second,
        })
    } else if what == b"events".as_slice() {
        Some(TextWhy::Events {
            room: first,
            need: second,
        })
    } else {
        None
    }
}

/// Why a port was not fit.
fn port_why(what: &[u8], port: &[u8]) -> Option<TextWhy>
    ensures some { IfSome result (λ why. codes "not" ∷ what.now ∷ port.now ∷ [] ≡ why_words why) }
    ensures why { IfSome result IsWhy }
    ensures is { result ≡ port_why what.now port.now }
{
    if what == b"accepting".as_slice() {
        let Some(port) = port_in(port) else {
            return None;
        };
        Some(TextWhy::NotAccepting(port))
    } else if what == b"running".as_slice() {
        let Some(port) = port_in(port) else {
            return None;
        };
        Some(TextWhy::NotRunning(port))
    } else {
        None
    }
}

/// Which port has nothing for a step.
fn wanting_why(what: &[u8], port: &[u8]) -> Option<TextWhy>
    ensures some { IfSome result (λ why. codes "no" ∷ what.now ∷ port.now ∷ [] ≡ why_words why) }
    ensures why { IfSome result IsWhy }
    ensures is { result ≡ wanting_why what.now (small_number port.now) }
{
    let Some(port) = small_number_in(port) else {
        return None;
    };
    if what == b"data".as_slice() {
        Some(TextWhy::NoData(port))
    } else if what == b"room".as_slice() {
        Some(TextWhy::NoRoom(port))
    } else {
        None
    }
}

fn busy_why(busy: &[u8], port: &[u8]) -> Option<TextWhy>
    ensures some { IfSome result (λ why. codes "port" ∷ busy.now ∷ port.now ∷ [] ≡ why_words why) }
    ensures why { IfSome result IsWhy }
    ensures is { result ≡ why_of_three (codes "port") busy.now port.now }
{
    if busy != b"busy".as_slice() {
        return None;
    }
    let Some(port) = small_number_in(port) else {
        return None;
    };
    Some(TextWhy::PortBusy(port))
}

fn why_of_three(one: &[u8], two: &[u8], three: &[u8]) -> Option<TextWhy>
    ensures some { IfSome result (λ why. one.now ∷ two.now ∷ three.now ∷ [] ≡ why_words why) }
    ensures why { IfSome result IsWhy }
    ensures is { result ≡ why_of_three one.now two.now three.now }
{
    if one == b"not".as_slice() {
        return port_why(two, three);
    }
    if one == b"port".as_slice() {
        return busy_why(two, three);
    }
    if one == b"no".as_slice() {
        return wanting_why(two, three);
    }
    let Some(first) = small_number_in(two) else {
        return None;
    };
    let Some(second) = small_number_in(three) else {
        return None;
    };
    numbers_why(one, first, second)
}

fn lone_why(one: &[u8]) -> Option<TextWhy>
    ensures some { IfSome result (λ why. one.now ∷ [] ≡ why_words why) }
    ensures why { IfSome result IsWhy }
    ensures is { result ≡ why_of (one.now ∷ []) }
{
    if one == b"supplier".as_slice() {
        Some(TextWhy::IsSupplier)
    } else if one == b"busy".as_slice() {
        Some(TextWhy::WorkOut)
    } else if one == b"ended".as_slice() {
        Some(TextWhy::PartEnded)
    } else {
        None
    }
}

/// The why of the words after `idle`.
pub fn why_in(words: &[&[u8]]) -> Option<TextWhy>
    ensures some { IfSome result (λ why. texts words.now ≡ why_words why) }
    ensures why { IfSome result IsWhy }
    ensures is { result ≡ why_of (texts words.now) }
{
    match words {
        [one] => lone_why(one),
        [one, two] => why_of_two(one, two),
        [one, two, three] => why_of_three(one, two, three),
        _ => None,
    }
}
