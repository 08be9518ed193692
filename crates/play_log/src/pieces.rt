//! A list that grows by pieces of its own memory, so that nothing in it moves.

ghost use Rattle.std.specs.Prelude.{◌≡◌, ◌<◌, ◌≤◌, ◌∷◌, ◌++◌, [], OnErr, OnOk, length, slice_get};
ghost use Rattle.std.specs.List.{flat_map};
ghost use Rattle.play_log.specs.Full.{AreFull, piece_room};

use std::alloc::{AllocError, Global};
use std::marker::Model;
use std::mem::replace;

/// How many values a piece has room for.
const PIECE: usize = 8192;

/// A list of values. It takes memory for a piece at a time.
#[derive(Drop)]
pub struct Pieces<T: Copy> {
    alloc: Global,
    /// The pieces that are full, in their order.
    full: Vec<Vec<T>>,
    last: Vec<T>,
}

impl<T: Copy> Model for Pieces<T> {
    ghost use Rattle.std.specs.Prelude.{List, ◌++◌, ◌≤◌, length};
    ghost use Rattle.std.specs.List.{flat_map};
    ghost use Rattle.play_log.specs.Full.{AreFull, piece_room};

    ghost Value = { List T };

    ghost view = { λ list. flat_map (λ piece. piece.items) list.full.items ++ list.last.items };

    ghost invariant = { λ list. AreFull list.full.items × (length list.last.items ≤ piece_room) };
}

impl<T: Copy> Pieces<T> {
    /// A list without a value, which takes no memory yet.
    pub fn new(alloc: Global) -> Pieces<T>
        ensures { result ≡ [] }
    {
        Pieces {
            alloc,
            full: Vec::new(alloc),
            last: Vec::new(alloc),
        }
    }

    /// Adds a value at the end. Where memory is wanting the list stays as it is.
    pub fn push(&mut self, value: T) -> Result<(), AllocError>
        ensures added { OnOk result (self.new ≡ self.old ++ value ∷ []) }
        ensures kept { OnErr result (self.new ≡ self.old) }
    {
        begin_piece(self.alloc, &mut self.full, &mut self.last)?;
        self.last.push(value)?;
        Ok(())
    }

    /// The pieces that are full, in their order, and the values behind them.
    pub fn parts(&self) -> (&[Vec<T>], &[T])
        ensures { flat_map (λ piece. piece.items) result.0.now ++ result.1.now ≡ self.now }
    {
        (self.full.as_slice(), self.last.as_slice())
    }

    /// The value at the index, if there is one.
    pub fn get(&self, index: usize) -> Option<T>
        ensures { result ≡ slice_get self.now index }
    {
        let piece = index / PIECE;
        if piece < self.full.len() {
            get_copied(self.full[piece].as_slice(), index % PIECE)
        } else {
            get_copied(self.last.as_slice(), index - self.full.len() * PIECE)
        }
    }
}

/// Where the last piece is full another one begins.
fn begin_piece<T: Copy>(
    alloc: Global,
    full: &mut Vec<Vec<T>>,
    last: &mut Vec<T>,
) -> Result<(), AllocError>
    requires full { AreFull full.old.items }
    requires last { length last.old.items ≤ piece_room }
    ensures full { AreFull full.new.items }
    ensures room { length last.new.items ≤ piece_room }
    ensures begun { OnOk result (length last.new.items < piece_room) }
    ensures same { flat_map (λ piece. piece.items) full.new.items ++ last.new.items ≡ flat_map (λ piece. piece.items) full.old.items ++ last.old.items }
{
    if last.len() < PIECE {
        return Ok(());
    }
    let fresh = Vec::with_capacity(alloc, PIECE)?;
    let done = replace(last, fresh);
    match full.push(done) {
        Ok(()) => Ok(()),
        Err(failed) => {
            *last = failed.value;
            Err(AllocError)
        }
    }
}

fn get_copied<T: Copy>(values: &[T], index: usize) -> Option<T>
    ensures { result ≡ slice_get values.now index }
{
    match values.get(index) {
        Some(value) => Some(*value),
        None => None,
    }
}
