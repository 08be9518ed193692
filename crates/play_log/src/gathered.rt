//! Bytes are gathered, so that a sink gets them in large pieces.

ghost use Rattle.std.specs.Prelude.{◌≡◌, ◌≤◌, ◌-◌, ◌++◌, [], OnOk, IfOk, length};
ghost use Rattle.std.specs.Fmt.{decimal};
ghost use Rattle.outside_io.specs.Causes.{HasCause};
ghost use Rattle.outside_io.specs.Keeping.{KeepsSink};
ghost use Rattle.play_log.specs.Gathering.{Puts};

use crate::OutOfMemory;
use line_text::put_number;
use outside_io::{Failed, Sink, write_all};
use std::alloc::Global;
use std::marker::Model;

/// How many bytes are gathered, at most.
const ROOM: usize = 65536;

/// Bytes that a sink is still to get. No call takes memory.
#[derive(Drop)]
pub(crate) struct Gathered {
    bytes: Vec<u8>,
    len: usize,
}

impl Model for Gathered {
    ghost use Rattle.std.specs.Prelude.{◌≤◌, length, take};
    ghost use Rattle.play_log.specs.Gathering.{GatheredValue};

    ghost Value = { GatheredValue };

    ghost view = { λ it. record { held = take it.len it.bytes.items; size = length it.bytes.items } };

    ghost invariant = { λ it. it.len ≤ length it.bytes.items };
}

impl Gathered {
    /// Nothing is gathered yet.
    pub(crate) fn new(alloc: Global) -> Result<Gathered, OutOfMemory>
        ensures { IfOk result (λ it. it.held ≡ []) }
    {
        Ok(Gathered {
            bytes: vec![in alloc; 0u8; ROOM]?,
            len: 0,
        })
    }

    /// How many bytes may come.
    fn room(&self) -> usize
        ensures { result ≡ self.now.size - length self.now.held }
    {
        self.bytes.len() - self.len
    }

    /// The piece comes behind what is gathered.
    fn hold(&mut self, piece: &[u8])
        requires { length piece.now ≤ self.old.size - length self.old.held }
        ensures { self.new.held ≡ self.old.held ++ piece.now }
    {
        let end = self.len + piece.len();
        self.bytes[self.len..end].copy_from_slice(piece);
        self.len = end;
    }

    /// The sink gets what is gathered.
    pub(crate) fn flush<K: Sink>(&mut self, sink: &mut K) -> Result<(), Failed>
        ensures puts { Puts (K.told sink.old) (K.told sink.new) self.old.held self.new.held [] result }
        ensures empty { OnOk result (self.new.held ≡ []) }
        ensures keeps_sink { KeepsSink K.Sink sink.old sink.new }
        ensures cause { HasCause (K.faults sink.old) (K.faults sink.new) result }
    {
        write_all(sink, &self.bytes[..self.len])?;
        self.len = 0;
        Ok(())
    }

    /// The sink gets what is gathered, or gets it later: the piece comes behind it.
    pub(crate) fn put<K: Sink>(&mut self, piece: &[u8], sink: &mut K) -> Result<(), Failed>
        ensures puts { Puts (K.told sink.old) (K.told sink.new) self.old.held self.new.held piece.now result }
        ensures keeps_sink { KeepsSink K.Sink sink.old sink.new }
        ensures cause { HasCause (K.faults sink.old) (K.faults sink.new) result }
    {
        if piece.len() <= self.room() {
            self.hold(piece);
            return Ok(());
        }
        self.flush(sink)?;
        if piece.len() <= self.room() {
            self.hold(piece);
            return Ok(());
        }
        write_all(sink, piece)
    }

    /// The digits of a number come behind what is gathered.
    pub(crate) fn put_number<K: Sink>(&mut self, number: u64, sink: &mut K) -> Result<(), Failed>
        ensures puts { Puts (K.told sink.old) (K.told sink.new) self.old.held self.new.held (decimal number) result }
        ensures keeps_sink { KeepsSink K.Sink sink.old sink.new }
        ensures cause { HasCause (K.faults sink.old) (K.faults sink.new) result }
    {
        let mut digits = [0u8; 20];
        let count = put_number(number, &mut digits);
        self.put(&digits[..count], sink)
    }
}
