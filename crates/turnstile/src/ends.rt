//! Making a turnstile, splitting and joining its passes, and its end.
ghost use Rattle.std.specs.Prelude.{◌≡◌, ℕ, ◌<◌, ◌^◌, [], ◌∷◌, ◌++◌, length, IfOk, IfErr};
ghost use Rattle.turnstile.specs.Turns.{newborn, rooted, parent, child, Ended};
ghost use Rattle.turnstile.specs.Passes.{IsPassOf, view, own_calls, opening_of, Joined};

use crate::serve::Serve;
use crate::turnstile::{Pass, Place, Turnstile};
use crate::view::{Another, Fill, Learn, Merge, Open};
use atomic_table::Table;
use std::alloc::{AllocError, Global};

/// There was no memory.
pub type OutOfMemory = AllocError;

const SERVING: usize = 1;

impl<V: Serve> Turnstile<V> {
    /// A turnstile round the value, and its first pass.
    pub fn new(alloc: Global, value: V) -> Result<(Turnstile<V>, Pass<V>), (OutOfMemory, V)>
        requires { V.legal value [] × V.reaches value [] value }
        ensures ok { IfOk result (λ t. (opening_of t.0 ≡ value) × IsPassOf t.0 t.1 × (view t.1 ≡ rooted value)) }
        ensures err { IfErr result (λ e. e.1 ≡ value) }
    {
        match Table::vacant(alloc, &[0, 0], 1, &value) {
            Err(e) => Err((e, value)),
            Ok((table, seat)) => Ok(Turnstile { table }.filled(seat, value)),
        }
    }

    // The first pass takes the empty slot and gives it back with the value.
    fn filled(self, mut seat: Place<V>, value: V) -> (Turnstile<V>, Pass<V>)
        requires { (seat.table_id ≡ self.table.shared.table_id) × (seat.me ≡ (newborn value, [])) × (opening_of self ≡ value) × V.legal value [] × V.reaches value [] value }
        ensures { (opening_of result.0 ≡ value) × IsPassOf result.0 result.1 × (view result.1 ≡ rooted value) }
    {
        self.table.shared.load::<Open>(&mut seat, SERVING);
        match self.table.shared.exchange(&mut seat, 0, Some(value)) {
            None => {}
            Some(_) => unreachable!(),
        }
        self.table.shared.load::<Fill>(&mut seat, SERVING);
        (
            self,
            Pass {
                seat,
                refused: false,
            },
        )
    }

    /// A pass that has seen as much as the first one.
    pub fn split(&self, root: &mut Pass<V>) -> Pass<V>
        requires pass { IsPassOf self.now root.old × ((view root.old).number ≡ 0) × ((view root.old).splits < 2 ^ 32) }
        ensures root { IsPassOf self.now root.new × (view root.new ≡ parent (view root.old)) }
        ensures child { IsPassOf self.now result × (view result ≡ child (view root.old)) }
    {
        Pass {
            seat: self.table.shared.split_seat::<Another>(&mut root.seat),
            refused: false,
        }
    }

    /// The first pass has then seen one history with all that both had seen.
    pub fn join(&self, root: &mut Pass<V>, pass: Pass<V>)
        requires root { IsPassOf self.now root.old × ((view root.old).number ≡ 0) }
        requires pass { IsPassOf self.now pass × V.clear (own_calls pass) }
        ensures root { IsPassOf self.now root.new × ((view root.new).number ≡ 0) × ((view root.new).splits ≡ (view root.old).splits) × (own_calls root.new ≡ own_calls root.old) }
        ensures listed { (view root.new).joined ≡ (view root.old).joined ++ ((view pass).number, own_calls pass) ∷ [] }
        ensures history { Joined V.legal V.may (opening_of self.now) (view root.old) (view pass) (view root.new) }
    {
        let seat = pass.into_seat();
        self.table.shared.join_seat::<Merge>(&mut root.seat, seat);
        self.table.shared.load::<Learn>(&mut root.seat, SERVING);
    }

    /// The value, once each other pass was joined.
    pub fn close(self, root: Pass<V>) -> V
        requires root { IsPassOf self root × ((view root).number ≡ 0) × V.clear (own_calls root) }
        requires joined { length (view root).joined ≡ (view root).splits }
        ensures { Ended V.legal V.reaches V.may V.clear (view root) (opening_of self) result }
    {
        let table = self.into_table();
        let seat = root.into_seat();
        let mut closed = table.close_with(seat);
        let value = closed.take(0);
        closed.free();
        match value {
            Some(value) => value,
            None => unreachable!(),
        }
    }
}
