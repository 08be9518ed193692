//! Turns: of one act, and of several in a row.
ghost use Rattle.std.specs.Prelude.{◌≡◌, ◌+◌, ◌≤◌, ◌<◌, ◌^◌, [], Some, None, length, IfOk, IfErr, IfSome, IfNone};
ghost use Rattle.std.specs.VecDeque.{deque_len, deque_capacity};
ghost use Rattle.turnstile.specs.Turns.{ticket_after, one_less};
ghost use Rattle.turnstile.specs.Passes.{IsIdle, IsPastPlaces, HadTurn, Called, IsPassOf, IsSamePass, view, seen, own_calls, opening_of};
ghost use Rattle.turnstile.specs.Rows.{MayInRow, HasTickets, HasSameCalls, CalledFront, at_rest};

use crate::serve::Serve;
use crate::turnstile::{Pass, Place, Turnstile};
use std::collections::VecDeque;
use std::marker::Brand;
use std::sync::Wait;

// How many places are given.
const MOST: u64 = 1 << 50;

impl<V: Serve> Turnstile<V> {
    // The turn of a seat's ticket.
    fn take_turn<R: Wait>(&self, rt: &R, seat: &mut Place<V>, ticket: u64, act: V::Act) -> V::Reply
        requires seat { (seat.old.table_id ≡ self.now.table.shared.table_id) × (seat.old.me.1 ≡ []) × IsIdle seat.old.me.0 × (seat.old.me.0.ticket ≡ Some ticket) × (ticket < 2 ^ 50) }
        requires opening { seat.old.me.0.opening ≡ Some (opening_of self.now) }
        requires may { V.may (opening_of self.now) seat.old.me.0.mine act }
        ensures seat { (seat.new.table_id ≡ seat.old.table_id) × (seat.new.me.1 ≡ []) × IsIdle seat.new.me.0 × IsSamePass seat.old.me.0 seat.new.me.0 }
        ensures opening { seat.new.me.0.opening ≡ seat.old.me.0.opening }
        ensures tickets { (seat.new.me.0.ticket ≡ ticket_after (Some ticket) seat.old.me.0.more) × (seat.new.me.0.more ≡ one_less seat.old.me.0.more) }
        ensures turn { HadTurn V.legal V.may (opening_of self.now) seat.old.me.0 act ticket result seat.new.me.0 }
    {
        self.enter::<Brand, R>(rt, seat, ticket, &act);
        let reply = self.serve(seat, act, ticket);
        self.leave::<Brand>(seat, &reply);
        reply
    }

    /// Serves the act when its turn comes, and answers its place in the history and the reply. `Err` where 2^50 places were given.
    pub fn turn<R: Wait>(
        &self,
        rt: &R,
        pass: &mut Pass<V>,
        act: V::Act,
    ) -> Result<(u64, V::Reply), V::Act>
        requires pass { IsPassOf self.now pass.old }
        requires may { V.may (opening_of self.now) (own_calls pass.old) act }
        ensures pass { IsPassOf self.now pass.new × IsSamePass (view pass.old) (view pass.new) }
        ensures ok { IfOk result (λ r. Called V.legal V.may (opening_of self.now) (view pass.old) act r.0 r.1 (view pass.new)) }
        ensures err { IfErr result (λ back. (back ≡ act) × (seen pass.new ≡ seen pass.old) × (own_calls pass.new ≡ own_calls pass.old) × IsPastPlaces (view pass.new).ticket) }
    {
        if pass.refused {
            return Err(act);
        }
        let ticket = self.draw(&mut pass.seat, 1);
        if ticket >= MOST {
            pass.refused = true;
            return Err(act);
        }
        let reply = self.take_turn(rt, &mut pass.seat, ticket, act);
        Ok((ticket, reply))
    }

    // The turns of a seat's tickets, as far as they have places.
    fn take_turns<R: Wait>(
        &self,
        rt: &R,
        seat: &mut Place<V>,
        first: u64,
        acts: &mut VecDeque<V::Act>,
        replies: &mut VecDeque<V::Reply>,
    )
        requires seat { (seat.old.table_id ≡ self.now.table.shared.table_id) × (seat.old.me.1 ≡ []) × IsIdle seat.old.me.0 × HasTickets seat.old.me.0 first (length acts.old.items) }
        requires opening { seat.old.me.0.opening ≡ Some (opening_of self.now) }
        requires may { MayInRow (V.may (opening_of self.now)) seat.old.me.0.number seat.old.me.0.mine acts.old.items }
        requires room { deque_len replies.old + deque_len acts.old ≤ deque_capacity replies.old }
        ensures seat { (seat.new.table_id ≡ seat.old.table_id) × (seat.new.me.1 ≡ []) × IsIdle seat.new.me.0 × IsSamePass seat.old.me.0 seat.new.me.0 }
        ensures opening { seat.new.me.0.opening ≡ seat.old.me.0.opening }
        ensures some { first < 2 ^ 50 → 0 < length acts.old.items → length acts.new.items < length acts.old.items }
        ensures done { length acts.new.items ≡ 0 → seat.new.me.0.ticket ≡ None }
        ensures left { 0 < length acts.new.items → IsPastPlaces seat.new.me.0.ticket }
        ensures room { (deque_capacity acts.new ≡ deque_capacity acts.old) × (deque_capacity replies.new ≡ deque_capacity replies.old) }
        ensures row { CalledFront V.legal V.may (opening_of self.now) first (at_rest seat.old.me.0) acts.old.items acts.new.items replies.old.items replies.new.items seat.new.me.0 }
    {
        let mut ticket = first;
        while ticket < MOST {
            let Some(act) = acts.pop_front() else {
                return;
            };
            let reply = self.take_turn(rt, seat, ticket, act);
            replies.push_back_reserved(reply);
            ticket += 1;
        }
    }

    /// Serves the acts of the list in turns that follow each other, with no other call between, and puts their replies behind the others.
    /// Answers the place of the first. Acts for which no place is left stay in the list; `None` where none was served.
    pub fn turns<R: Wait>(
        &self,
        rt: &R,
        pass: &mut Pass<V>,
        acts: &mut VecDeque<V::Act>,
        replies: &mut VecDeque<V::Reply>,
    ) -> Option<u64>
        requires pass { IsPassOf self.now pass.old }
        requires may { MayInRow (V.may (opening_of self.now)) (view pass.old).number (own_calls pass.old) acts.old.items }
        requires few { length acts.old.items ≤ 2 ^ 16 }
        requires room { deque_len replies.old + deque_len acts.old ≤ deque_capacity replies.old }
        ensures pass { IsPassOf self.now pass.new × IsSamePass (view pass.old) (view pass.new) }
        ensures row { IfSome result (λ place. CalledFront V.legal V.may (opening_of self.now) place (view pass.old) acts.old.items acts.new.items replies.old.items replies.new.items (view pass.new)) }
        ensures some { IfSome result (λ place. length acts.new.items < length acts.old.items) }
        ensures none { IfNone result (HasSameCalls (view pass.old) (view pass.new) × (acts.new.items ≡ acts.old.items) × (replies.new.items ≡ replies.old.items)) }
        ensures left { 0 < length acts.new.items → IsPastPlaces (view pass.new).ticket }
        ensures room { (deque_capacity acts.new ≡ deque_capacity acts.old) × (deque_capacity replies.new ≡ deque_capacity replies.old) }
    {
        if pass.refused || acts.is_empty() {
            return None;
        }
        let place = self.draw(&mut pass.seat, acts.len() as u64);
        if place >= MOST {
            pass.refused = true;
            return None;
        }
        self.take_turns(rt, &mut pass.seat, place, acts, replies);
        if !acts.is_empty() {
            pass.refused = true;
        }
        Some(place)
    }
}
