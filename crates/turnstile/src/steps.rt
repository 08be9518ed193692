//! The steps of a turn.
ghost use Rattle.std.specs.Prelude.{◌≡◌, ℕ, ◌≤◌, ◌<◌, ◌^◌, [], ◌∷◌, ◌++◌, true, false, Some, None, MatchBool};
ghost use Rattle.turnstile.specs.declared.view.Stage.TheVariants.{Ready};
ghost use Rattle.turnstile.specs.Entries.{entry};
ghost use Rattle.turnstile.specs.Turns.{drawn, left};
ghost use Rattle.turnstile.specs.Passes.{IsIdle, Entered, InTurn, Served};

use crate::serve::Serve;
use crate::turnstile::{Place, Turnstile};
use crate::view::{Draw, Enter, Leave, Told};
use std::hint::spin_loop;
use std::sync::Wait;
use std::thread;

const TICKET: usize = 0;

const SERVING: usize = 1;

// How often a pass looks at once, before it lets other threads run between two looks.
const LOOKS: u32 = 100;

impl<V: Serve> Turnstile<V> {
    // Draws so many tickets in a row, and answers the first.
    pub(crate) fn draw(&self, seat: &mut Place<V>, count: u64) -> u64
        requires seat { (seat.old.table_id ≡ self.now.table.shared.table_id) × IsIdle seat.old.me.0 × (seat.old.me.0.ticket ≡ None) }
        requires count { (0 < count) × (count ≤ 2 ^ 16) }
        ensures { (seat.new.table_id ≡ seat.old.table_id) × (seat.new.me ≡ (drawn seat.old.me.0 result count, seat.old.me.1)) }
    {
        self.table.shared.fetch_add::<Draw>(seat, TICKET, count)
    }

    // Whether it is this seat's turn, which it then has.
    fn look<J: Told<V::Act>>(&self, seat: &mut Place<V>, ticket: u64, act: &V::Act) -> bool
        requires told { J.told ≡ Some act.now }
        requires seat { (seat.old.table_id ≡ self.now.table.shared.table_id) × (seat.old.me.1 ≡ []) × IsIdle seat.old.me.0 × (seat.old.me.0.ticket ≡ Some ticket) × (ticket < 2 ^ 50) }
        ensures same { seat.new.table_id ≡ seat.old.table_id }
        ensures turn { MatchBool result (Entered V.legal V.may V.reaches act.now ticket seat.old.me seat.new.me) (seat.new.me ≡ seat.old.me) }
    {
        self.table.shared.load::<Enter<J>>(seat, SERVING) == ticket
    }

    pub(crate) fn leave<J: Told<V::Reply>>(&self, seat: &mut Place<V>, reply: &V::Reply)
        requires told { J.told ≡ Some reply.now }
        requires seat { (seat.old.table_id ≡ self.now.table.shared.table_id) × (seat.old.me.0.stage ≡ Ready) × (seat.old.me.0.spent ≡ false) × (seat.old.me.0.inside ≡ true) }
        requires call { (first y : V) × (act : V.Act) × (seat.old.me.0.asked ≡ Some act) × (seat.old.me.0.opening ≡ Some first) × (seat.old.me.1 ≡ (0, Some y) ∷ []) × V.may first seat.old.me.0.mine act × V.legal first (seat.old.me.0.seen ++ entry seat.old.me.0.number act reply.now ∷ []) × V.reaches first (seat.old.me.0.seen ++ entry seat.old.me.0.number act reply.now ∷ []) y }
        ensures same { seat.new.table_id ≡ seat.old.table_id }
        ensures left { (act : V.Act) → seat.old.me.0.asked ≡ Some act → seat.new.me ≡ (left seat.old.me.0 (entry seat.old.me.0.number act reply.now), []) }
    {
        self.table.shared.fetch_add::<Leave<J>>(seat, SERVING, 1);
    }

    // Waits for its turn.
    pub(crate) fn enter<J: Told<V::Act>, R: Wait>(
        &self,
        rt: &R,
        seat: &mut Place<V>,
        ticket: u64,
        act: &V::Act,
    )
        requires told { J.told ≡ Some act.now }
        requires seat { (seat.old.table_id ≡ self.now.table.shared.table_id) × (seat.old.me.1 ≡ []) × IsIdle seat.old.me.0 × (seat.old.me.0.ticket ≡ Some ticket) × (ticket < 2 ^ 50) }
        ensures same { seat.new.table_id ≡ seat.old.table_id }
        ensures turn { Entered V.legal V.may V.reaches act.now ticket seat.old.me seat.new.me }
    {
        let mut looks = 0;
        for _ in rt.forever() {
            if self.look::<J>(seat, ticket, act) {
                return;
            }
            if looks < LOOKS {
                looks += 1;
                spin_loop();
            } else {
                thread::yield_now();
            }
        }
        unreachable!()
    }

    pub(crate) fn serve(&self, seat: &mut Place<V>, act: V::Act, place: u64) -> V::Reply
        requires table { seat.old.table_id ≡ self.now.table.shared.table_id }
        requires turn { InTurn V.legal V.may V.reaches act place seat.old.me }
        ensures same { seat.new.table_id ≡ seat.old.table_id }
        ensures served { Served V.legal V.may V.reaches act result seat.old.me seat.new.me }
    {
        let slot = seat.slot_mut(&self.table.shared, 0);
        match slot {
            Some(value) => value.serve(act, place),
            None => unreachable!(),
        }
    }
}
