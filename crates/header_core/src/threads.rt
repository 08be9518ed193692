//! A header and its memory may move to another thread.
ghost use Rattle.std.specs.Thread.{IsSend};

use crate::{Header, Store};

fn may_move<T: Send>()
    requires { IsSend T.row }
{}

fn fit() {
    may_move::<Header>();
    may_move::<Store>();
}
