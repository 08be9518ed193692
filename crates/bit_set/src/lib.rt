//! Sets of small numbers, a bit each of one word.
#![tactic(auto)]

ghost use Rattle.std.specs.Prelude.{◌≡◌, ◌↔◌, ◌<◌, ◌^◌, ◌||◌, ◌&&◌, ℕ, IsTrue, false, not, nat_eq};
ghost use Rattle.bit_set.specs.Members.{has, moved_down, IsNext};

use std::marker::Model;

/// A set of numbers below 32. It is seen as the number whose bits tell which it has.
#[derive(Drop)]
pub struct BitSet {
    word: u32,
}

impl Model for BitSet {
    ghost Value = { ℕ };

    ghost view = { λ s. s.word };

    ghost invariant = { λ s. s.word < 2 ^ 32 };
}

impl BitSet {
    /// The set with no number.
    pub fn empty() -> BitSet
        ensures { (i : ℕ) → has result i ≡ false }
    {
        BitSet { word: 0 }
    }

    /// Whether it has no number.
    pub fn is_empty(&self) -> bool
        ensures { IsTrue result ↔ ((i : ℕ) → has self.now i ≡ false) }
    {
        self.word == 0
    }

    /// Takes a number in, whether it was there or not.
    pub fn insert(&mut self, number: usize)
        requires { number < 32 }
        ensures { (i : ℕ) → has self.new i ≡ (nat_eq i number || has self.old i) }
    {
        self.word |= 1 << number;
    }

    /// Takes a number out, whether it was there or not.
    pub fn remove(&mut self, number: usize)
        requires { number < 32 }
        ensures { (i : ℕ) → has self.new i ≡ (not (nat_eq i number) && has self.old i) }
    {
        self.word &= !(1 << number);
    }

    /// The least number of the set from this one on.
    pub fn next(&self, from: usize) -> Option<usize>
        ensures { IsNext self.now from result }
    {
        let word = self.word;
        if from >= 32 {
            return None;
        }
        let rest = word >> from;
        if rest == 0 {
            return None;
        }
        Some(from + rest.trailing_zeros() as usize)
    }

    /// Takes the number out, and makes each greater one of the set less by one.
    pub fn move_down(&mut self, number: usize)
        requires { number < 32 }
        ensures { (i : ℕ) → has self.new i ≡ has self.old (moved_down number i) }
    {
        let above = self.word >> number >> 1 << number;
        let below = self.word % (1 << number);
        self.word = above + below;
    }
}
