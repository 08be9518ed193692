//! Two threads take the coin and give it back.
ghost use Rattle.std.specs.Prelude.{◌≡◌, ◌<◌, ◌+◌, [], ◌∷◌, ◌++◌, length, Some, None, IfOk, IfErr, IfSome, IfNone, OnOk};
ghost use Rattle.turnstile.specs.Entries.{own, entry};
ghost use Rattle.turnstile.specs.Passes.{IsPassOf, IsSamePass, IsPastPlaces, Called, view, own_calls, opening_of};
ghost use Rattle.turnstile_uses.specs.Runs.{Legal, May, held, coin_of};
ghost use Rattle.turnstile_uses.specs.declared.coin.Ask.TheVariants.{Take, Back};
ghost use Rattle.turnstile_uses.specs.declared.coin.Answer.TheVariants.{Got, Thanks};

use crate::coin::{Answer, Ask, Coin};
use crate::purse::Purse;
use std::alloc::{AllocError, Global};
use std::sync::Wait;
use std::thread;
use std::thread::Threads;
use turnstile::{Pass, Turnstile};

/// The place of the call, and the coin if it was there. `None` where no more places are given.
pub fn take<R: Wait>(
    rt: &R,
    purse: &Turnstile<Purse>,
    pass: &mut Pass<Purse>,
) -> Option<(u64, Option<Coin>)>
    requires { IsPassOf purse.now pass.old × (held (own_calls pass.old) ≡ None) }
    ensures pass { IsPassOf purse.now pass.new × IsSamePass (view pass.old) (view pass.new) }
    ensures coin { held (own_calls pass.new) ≡ coin_of result }
    ensures call { IfSome result (λ r. Called Legal (λ first. May) (opening_of purse.now) (view pass.old) Take r.0 (Got r.1) (view pass.new)) }
    ensures none { IfNone result (IsPastPlaces (view pass.new).ticket) }
{
    match purse.turn(rt, pass, Ask::Take) {
        Ok((place, Answer::Got(coin))) => Some((place, coin)),
        Ok((_, Answer::Thanks)) => unreachable!(),
        Err(Ask::Take) => None,
        Err(Ask::Back(_coin)) => unreachable!(),
    }
}

/// Gives the coin back, and answers the place of the call. `Err` where no more places are given.
pub fn give<R: Wait>(
    rt: &R,
    purse: &Turnstile<Purse>,
    pass: &mut Pass<Purse>,
    coin: Coin,
) -> Result<u64, Coin>
    requires { IsPassOf purse.now pass.old × (held (own_calls pass.old) ≡ Some coin) }
    ensures pass { IsPassOf purse.now pass.new × IsSamePass (view pass.old) (view pass.new) }
    ensures given { OnOk result (held (own_calls pass.new) ≡ None) }
    ensures call { IfOk result (λ place. Called Legal (λ first. May) (opening_of purse.now) (view pass.old) (Back coin) place Thanks (view pass.new)) }
    ensures back { IfErr result (λ c. (c ≡ coin) × IsPastPlaces (view pass.new).ticket) }
{
    match purse.turn(rt, pass, Ask::Back(coin)) {
        Ok((place, Answer::Thanks)) => Ok(place),
        Ok((_, Answer::Got(_coin))) => unreachable!(),
        Err(Ask::Take) => unreachable!(),
        Err(Ask::Back(coin)) => Err(coin),
    }
}

/// Takes the coin and gives it back. Where no more turns are given, it waits forever with the coin.
fn borrow<R: Wait>(rt: &R, purse: &Turnstile<Purse>, pass: &mut Pass<Purse>)
    requires { IsPassOf purse.now pass.old × (held (own_calls pass.old) ≡ None) }
    ensures { IsPassOf purse.now pass.new × (held (own_calls pass.new) ≡ None) }
{
    let Some((_, Some(coin))) = take(rt, purse, pass) else {
        return;
    };
    match give(rt, purse, pass, coin) {
        Ok(_) => {}
        Err(_coin) => {
            for _ in rt.forever() {
                thread::yield_now();
            }
            unreachable!()
        }
    }
}

/// The coin, once two threads had it in turns.
pub fn both<R: Threads + Wait + Sync>(
    rt: &R,
    alloc: Global,
    coin: Coin,
) -> Result<Coin, (AllocError, Coin)>
    ensures same { IfOk result (λ c. c ≡ coin) }
    ensures back { IfErr result (λ e. e.1 ≡ coin) }
{
    let (purse, mut root) = match Turnstile::new(
        alloc,
        Purse {
            coin: Some(coin),
            calls: 0,
        },
    ) {
        Ok(made) => made,
        Err((e, Purse { coin, calls: _ })) => return Err((e, coin.unwrap())),
    };
    let mut one = purse.split(&mut root);
    let mut two = purse.split(&mut root);
    let shared = &purse;
    thread::join_mut(
        rt,
        &mut ||
            requires { IsPassOf shared.now one × (held (own_calls one) ≡ None) }
            ensures { IsPassOf shared.entry.now one.exit × (held (own_calls one.exit) ≡ None) }
        { borrow(rt, shared, &mut one) },
        &mut ||
            requires { IsPassOf shared.now two × (held (own_calls two) ≡ None) }
            ensures { IsPassOf shared.entry.now two.exit × (held (own_calls two.exit) ≡ None) }
        { borrow(rt, shared, &mut two) },
    );
    purse.join(&mut root, one);
    purse.join(&mut root, two);
    let Purse { coin, calls: _ } = purse.close(root);
    Ok(coin.unwrap())
}
