//! A plan may move to another thread, and be shared by several.
ghost use Rattle.std.specs.Thread.{IsSync, IsSend};

use crate::Plan;

fn may_move<T: Send>()
    requires { IsSend T.row }
{}

fn may_be_shared<T: Sync>()
    requires { IsSync T.row }
{}

fn fit() {
    may_move::<Plan>();
    may_be_shared::<Plan>();
}
