//! The files of a graph whose sources and sinks get none.

ghost use Rattle.std.specs.Prelude.{◌≡◌, None, []};

use outside_io::{Failed, Sink, Source};

/// A type without values.
#[derive(Drop)]
pub enum Nothing {}

/// A file without bytes, which doesn't tell what it takes. It is made of a value of any type.
#[derive(Drop)]
pub struct EmptyFile<T> {
    of: T,
}

/// No file, since none can be made. A graph of such files is one without any.
pub type NoFile = EmptyFile<Nothing>;

impl<T> EmptyFile<T> {
    /// The files of a graph that has none, of a type that has no values.
    pub fn new(of: T) -> EmptyFile<T>
        ensures { result.of ≡ of }
    {
        EmptyFile { of }
    }
}

impl<T> Source for EmptyFile<T> {
    ghost told = { λ file. None };

    ghost name = { λ file. [] };

    ghost ends = { λ file. None };

    ghost size = { λ file. 0 };

    ghost offset = { λ file. 0 };

    ghost asked = { λ file. None };

    ghost faults = { λ file. 0 };

    fn size(&self) -> u64 {
        0
    }

    fn offset(&self) -> u64 {
        0
    }

    fn faults(&self) -> u64 {
        0
    }

    fn read(&mut self, _buf: &mut [u8]) -> Result<usize, Failed> {
        Ok(0)
    }

    fn seek_to(&mut self, _to: u64) -> Result<(), Failed> {
        Ok(())
    }
}

impl<T> Sink for EmptyFile<T> {
    ghost told = { λ file. None };

    ghost name = { λ file. [] };

    ghost faults = { λ file. 0 };

    ghost writing = { λ file. None };

    fn faults(&self) -> u64 {
        0
    }

    fn write(&mut self, piece: &[u8]) -> Result<usize, Failed> {
        Ok(piece.len())
    }
}
