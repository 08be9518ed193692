//! A region and its blocks may move to another thread.
ghost use Rattle.std.specs.Thread.{IsSend};

use crate::{Block, Region};

fn may_move<T: Send>()
    requires { IsSend T.row }
{}

fn fit() {
    may_move::<Region>();
    may_move::<Block>();
}
