//! What a seat knows, the rule of the table, and what each step tells. These types are for the proofs alone.

use atomic_table::{Join, Play, Split, TableRule};
use omx_types::State;
use std::collections::LinkedList;

/// Of each word the states that were shown, in order: so far as this seat knows, and as a joined one did.
pub struct View {
    pub shows: bool,
    pub spent: bool,
    pub seen: LinkedList<LinkedList<State>>,
    pub also: LinkedList<LinkedList<State>>,
}

pub struct Showing;

impl TableRule<(), View, Vec<State>> for Showing {
    ghost use Rattle.state_words.specs.Shown.{Kept, opens};

    ghost holds = { λ key. Kept };

    ghost first = { λ key. opens key.items };
}

pub struct Look;

impl Play<(), View> for Look {
    ghost use Rattle.state_words.specs.Shown.{Looks};

    ghost then = { Looks };
}

pub struct Show;

impl Play<(), View> for Show {
    ghost use Rattle.state_words.specs.Shown.{Shows};

    ghost then = { Shows };
}

pub struct Share;

impl Split<View> for Share {
    ghost use Rattle.state_words.specs.Shown.{reader};

    ghost left = { λ v. v };

    ghost right = { reader };
}

impl Join<View> for Share {
    ghost use Rattle.state_words.specs.Shown.{merged, nobody};

    ghost both = { merged };

    ghost spent = { nobody };
}
