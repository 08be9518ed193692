//! A conductor may move to another thread, and be shared by several.
ghost use Rattle.std.specs.Thread.{IsSync, IsSend};

use crate::Conductor;

fn may_move<T: Send>()
    requires { IsSend T.row }
{}

fn may_be_shared<T: Sync>()
    requires { IsSync T.row }
{}

fn fit() {
    may_move::<Conductor>();
    may_be_shared::<Conductor>();
}
