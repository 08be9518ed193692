//! The record of a work that is out, and the places for events that it reserves.

ghost use Rattle.std.specs.Prelude.{◌≡◌, ◌+◌, ◌≤◌, length, take};
ghost use Rattle.il_machine.specs.Room.{work_reserve};
ghost use Rattle.il_machine.specs.Settings.{weights_in};
ghost use Rattle.il_component.specs.Works.{picked_from};

use omx_types::Kind;
use std::marker::Model;

/// A work that is out.
#[derive(Drop)]
pub(crate) struct WorkOut {
    /// The number of the header that each port gave.
    numbers: [Option<u64>; 9],
    kind: Kind,
    gain: u32,
    weights: [u32; 8],
    announces: bool,
}

impl Model for WorkOut {
    ghost use Rattle.std.specs.Prelude.{◌≡◌, length, take};
    ghost use Rattle.il_machine.specs.Settings.{weights_in};
    ghost use Rattle.il_machine.specs.World.{Work};
    ghost use Rattle.il_component.specs.Works.{picked_from};

    ghost Value = { Work };

    ghost view = { λ w. record {
      headers = picked_from 0 w.numbers;
      gain = w.gain;
      weights = take (weights_in w.kind) w.weights;
      announces = w.announces;
    } };

    ghost invariant = { λ w. length w.numbers ≡ 9 };
}

/// How many of the ports gave a header.
fn given(numbers: &[Option<u64>], port: u32) -> u32
    requires { port + length numbers.now ≤ 9 }
    ensures count { result ≡ length (picked_from port numbers.now) }
    ensures few { result ≤ length numbers.now }
{
    match numbers {
        [] => 0,
        [None, rest @ ..] => given(rest, port + 1),
        [Some(_), rest @ ..] => 1 + given(rest, port + 1),
    }
}

impl WorkOut {
    pub(crate) fn new(
        kind: Kind,
        gain: u32,
        weights: [u32; 8],
        numbers: [Option<u64>; 9],
        announces: bool,
    ) -> WorkOut
        ensures { result ≡ record { headers = picked_from 0 numbers; gain = gain; weights = take (weights_in kind) weights; announces = announces } }
    {
        WorkOut {
            numbers,
            kind,
            gain,
            weights,
            announces,
        }
    }

    /// How many headers it has.
    fn headers(&self) -> u32
        ensures count { result ≡ length self.now.headers }
        ensures few { result ≤ 9 }
    {
        given(&self.numbers, 0)
    }

    pub(crate) fn announces(&self) -> bool
        ensures { result ≡ self.now.announces }
    {
        self.announces
    }
}

/// The places for events that a work reserves.
pub(crate) fn work_reserve(work: &Option<WorkOut>) -> u32
    ensures count { result ≡ work_reserve work.now }
    ensures few { result ≤ 11 }
{
    match work {
        None => 0,
        Some(work) => work.headers() + 2,
    }
}
