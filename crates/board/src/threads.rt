//! A board may be shared and a pass may move to another thread, where client objects and files may.
ghost use Rattle.std.specs.Thread.{IsSync, IsSend};

use crate::boards::Board;
use crate::pass::BoardPass;
use graph_acts::{Act, Reply};
use note_queues::Client;
use outside_io::{Sink, Source};

fn may_move<T: Send>()
    requires { IsSend T.row }
{}

fn may_be_shared<T: Sync>()
    requires { IsSync T.row }
{}

fn fit<S: Source + Send, K: Sink + Send, C: Client + Send>() {
    may_move::<Act<S, K, C>>();
    may_move::<Reply<S, K, C>>();
    may_move::<BoardPass<S, K, C>>();
    may_move::<Board<S, K, C>>();
    may_be_shared::<Board<S, K, C>>();
}
