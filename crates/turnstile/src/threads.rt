//! A pass may move to another thread and a turnstile may be shared, where its value may move.
ghost use Rattle.std.specs.Thread.{IsSync, IsSend};

use crate::serve::Serve;
use crate::turnstile::{Pass, Turnstile};

fn may_move<T: Send>()
    requires { IsSend T.row }
{}

fn may_be_shared<T: Sync>()
    requires { IsSync T.row }
{}

fn fit<V: Serve + Send>() {
    may_move::<Pass<V>>();
    may_move::<Turnstile<V>>();
    may_be_shared::<Turnstile<V>>();
}
