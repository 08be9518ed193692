//! A part and its file may move to another thread, where the sources and sinks may.
ghost use Rattle.std.specs.Thread.{IsSend};

use crate::{AnyPart, PartFile};
use outside_io::{Sink, Source};

fn may_move<T: Send>()
    requires { IsSend T.row }
{}

fn fit<S: Source + Send, K: Sink + Send>() {
    may_move::<AnyPart<S, K>>();
    may_move::<PartFile<S, K>>();
}
