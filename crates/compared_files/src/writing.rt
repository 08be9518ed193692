//! What is given is compared.

ghost use Rattle.std.specs.Prelude.{◌≡◌, ◌≢◌, ◌<◌, ◌≤◌, ◌++◌, length, take, true, false, Some, None, IfOk, OnErr};
ghost use Rattle.std.specs.Io.KnownBytes.{append_known};
ghost use Rattle.outside_io.specs.Causes.{HasCause, sum_of_counts};
ghost use Rattle.compared_files.specs.Comparing.{HasDiffered, HasMet, known_by, told_by};
ghost use Rattle.compared_files.specs.Next.{IsNext};

use crate::comparing::{Comparing, Met};
use outside_io::{Failed, Sink, Source};

/// How many bytes are compared at once, at most.
const PIECE: usize = 4096;

/// How the next bytes of a file are to a piece.
enum Next {
    /// So many are those of the piece.
    Same(usize),
    Other,
    /// The file gave nothing.
    Nothing,
}

/// One failed call more. The count stays at its last value.
fn one_more(count: u64) -> u64
    ensures { result ≡ sum_of_counts count 1 }
{
    count.saturating_add(1)
}

fn is_same(one: &[u8], other: &[u8]) -> bool
    ensures yes { result ≡ true → one.now ≡ other.now }
    ensures no { result ≡ false → one.now ≢ other.now }
{
    one == other
}

/// Reads the next bytes of a file, and compares them with a front of the piece.
fn next_of<S: Source>(src: &mut S, piece: &[u8]) -> Result<Next, Failed>
    requires { 0 < length piece.now }
    ensures told { S.told src.new ≡ S.told src.old }
    ensures name { S.name src.new ≡ S.name src.old }
    ensures size { S.size src.new ≡ S.size src.old }
    ensures ends { S.ends src.new ≡ S.ends src.old }
    ensures within { S.offset src.new ≤ S.size src.new }
    ensures failed { OnErr result (0 < S.faults src.new) }
    ensures next { IfOk result (IsNext (S.told src.old) (S.ends src.old) (S.size src.old) (S.offset src.old) (S.offset src.new) piece.now) }
{
    let most = piece.len().min(PIECE);
    let mut buf = [0u8; PIECE];
    match src.read(&mut buf[..most]) {
        Err(_) => Err(Failed),
        Ok(0) => Ok(Next::Nothing),
        Ok(count) => {
            if is_same(&buf[..count], &piece[..count]) {
                Ok(Next::Same(count))
            } else {
                Ok(Next::Other)
            }
        }
    }
}

impl<S: Source> Comparing<S> {
    /// Ends the comparison.
    fn end(&mut self, met: Met) -> Result<usize, Failed>
        requires { HasMet (S.faults self.old.src) (S.size self.old.src) (S.ends self.old.src) (Some met) }
        ensures ended { self.new ≡ record self.old { met = Some met; failed = sum_of_counts self.old.failed 1 } }
        ensures failed { IfOk result (λ count. ⊥) }
    {
        self.met = Some(met);
        self.failed = one_more(self.failed);
        Err(Failed)
    }

    /// Keeps a piece that isn't the file's.
    fn keep(&mut self, piece: &[u8]) -> Result<usize, Failed>
        requires some { 0 < length piece.now }
        requires other { HasDiffered (S.told self.old.src) self.old.place (self.old.other ++ piece.now) }
        ensures all { IfOk result (λ count. count ≡ length piece.now) }
        ensures taken { IfOk result (λ count. self.new ≡ record self.old { other = self.old.other ++ piece.now }) }
        ensures ended { OnErr result (self.new ≡ record self.old { met = Some Met.OutOfMemory; failed = sum_of_counts self.old.failed 1 }) }
    {
        match self.other.extend_from_slice(piece) {
            Ok(()) => Ok(piece.len()),
            Err(_) => self.end(Met::OutOfMemory),
        }
    }

    /// Compares a front of the piece with the file's next bytes.
    fn compare(&mut self, piece: &[u8]) -> Result<usize, Failed>
        requires some { 0 < length piece.now }
        requires going { self.old.met ≡ None }
        ensures bound { IfOk result (λ count. count ≤ length piece.now) }
        ensures some { IfOk result (λ count. 0 < count) }
        ensures taken { IfOk result (λ count. told_by (S.told self.new.src) self.new ≡ append_known (told_by (S.told self.old.src) self.old) (take count piece.now)) }
        ensures kept { OnErr result (told_by (S.told self.new.src) self.new ≡ told_by (S.told self.old.src) self.old) }
        ensures known { known_by (S.name self.new.src) (S.told self.new.src) (S.ends self.new.src) ≡ known_by (S.name self.old.src) (S.told self.old.src) (S.ends self.old.src) }
        ensures cause { HasCause self.old.failed self.new.failed result }
    {
        if !self.other.is_empty() {
            return self.keep(piece);
        }
        let size = self.src.size();
        match next_of(&mut self.src, piece) {
            Err(_) => {
                self.met = Some(Met::Failed);
                self.failed = one_more(self.failed);
                Err(Failed)
            }
            Ok(Next::Nothing) => {
                if self.place == size {
                    self.keep(piece)
                } else {
                    self.end(Met::Short {
                        at: self.place,
                        size,
                    })
                }
            }
            Ok(Next::Same(count)) => {
                self.place += count as u64;
                Ok(count)
            }
            Ok(Next::Other) => match self.other.extend_from_slice(piece) {
                Ok(()) => Ok(piece.len()),
                Err(_) => {
                    self.met = Some(Met::OutOfMemory);
                    self.failed = one_more(self.failed);
                    Err(Failed)
                }
            },
        }
    }
}

impl<S: Source> Sink for Comparing<S> {
    ghost told = { λ x. told_by (S.told x.src) x };

    ghost name = { λ x. known_by (S.name x.src) (S.told x.src) (S.ends x.src) };

    ghost faults = { λ x. x.failed };

    ghost writing = { λ x. None };

    fn faults(&self) -> u64 {
        self.failed
    }

    fn write(&mut self, piece: &[u8]) -> Result<usize, Failed> {
        match self.met {
            Some(met) => self.end(met),
            None => self.compare(piece),
        }
    }
}
