//! An act and its reply, with the reader of the pass that asks.

use graph_acts::{Act, Reply};
use outside_io::{Sink, Source};
use state_words::Reader;

pub struct Asked<S: Source, K: Sink, C> {
    pub act: Act<S, K, C>,
    pub reader: Reader,
}

pub struct Told<S: Source, K: Sink, C> {
    pub reply: Reply<S, K, C>,
    pub reader: Reader,
}
