//! Two threads have the coin in turns.

use crate::borrow::both;
use crate::coin::Coin;

#[test]
fn two_threads_share_a_coin(rt: HostRuntime) {
    let value = match both(&rt, rt.alloc(), Coin { value: 7 }) {
        Ok(Coin { value }) => value,
        Err((_, Coin { value: _ })) => 0,
    };
    assert_eq!(rt; value, 7);
}
