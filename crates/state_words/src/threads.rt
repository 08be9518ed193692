//! What shows and what reads may move to another thread, and the words may be shared.
ghost use Rattle.std.specs.Thread.{IsSync, IsSend};

use crate::words::{Reader, Shower, StateWords};

fn may_move<T: Send>()
    requires { IsSend T.row }
{}

fn may_be_shared<T: Sync>()
    requires { IsSync T.row }
{}

fn fit() {
    may_move::<StateWords>();
    may_be_shared::<StateWords>();
    may_move::<Shower>();
    may_move::<Reader>();
}
