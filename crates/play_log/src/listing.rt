//! The lines of a log of one pass, as they are written.

ghost use Rattle.std.specs.Prelude.{◌≡◌, ◌++◌, codes, length};
ghost use Rattle.outside_io.specs.Causes.{HasCause};
ghost use Rattle.outside_io.specs.Keeping.{KeepsSink};
ghost use Rattle.play_log.specs.Gathering.{Puts};
ghost use Rattle.play_log.specs.Spelled.{AreThere, spelled_from};

use crate::gathered::Gathered;
use crate::line::Line;
use crate::log_text::{put_lines, put_pieces};
use crate::pieces::Pieces;
use crate::words::Words;
use outside_io::{Failed, Sink};
use std::marker::Model;

/// The lines of a whole log, and how many they are.
#[derive(Drop)]
pub struct Listing {
    words: Words,
    lines: Pieces<Line>,
    count: u64,
}

impl Model for Listing {
    ghost use Rattle.std.specs.Prelude.{ℕ, List, ◌≡◌, ◌++◌, codes, length};
    ghost use Rattle.play_log.specs.Spelled.{AreThere, spelled_from};

    ghost Value = { List ℕ };

    ghost view = { λ text. spelled_from text.words 1 text.lines ++ codes "end\n" };

    ghost invariant = { λ text. (text.count ≡ length text.lines) × AreThere text.words text.lines };
}

impl Listing {
    pub(crate) fn new(words: Words, lines: Pieces<Line>, count: u64) -> Listing
        requires count { count ≡ length lines }
        requires there { AreThere words lines }
        ensures { result ≡ spelled_from words 1 lines ++ codes "end\n" }
    {
        Listing {
            words,
            lines,
            count,
        }
    }

    /// The text comes behind what is gathered.
    pub(crate) fn put<K: Sink>(&self, held: &mut Gathered, sink: &mut K) -> Result<(), Failed>
        ensures puts { Puts (K.told sink.old) (K.told sink.new) held.old.held held.new.held self.now result }
        ensures keeps_sink { KeepsSink K.Sink sink.old sink.new }
        ensures cause { HasCause (K.faults sink.old) (K.faults sink.new) result }
    {
        let (full, last) = self.lines.parts();
        let before = put_pieces(&self.words, full, self.count, held, sink)?;
        put_lines(&self.words, before, last, held, sink)?;
        held.put(b"end\n", sink)
    }
}
