//! A file, and how far what was given is its bytes.

ghost use Rattle.std.specs.Prelude.{◌≡◌, [], None, IsTrue, IsFalse, length};
ghost use Rattle.outside_io.specs.Moves.{WhereTold};
ghost use Rattle.compared_files.specs.Comparing.{HasMet, IsFrontless, IsGivenToEnd, given_by, told_by};

use outside_io::Source;
use std::alloc::Global;
use std::marker::Model;

/// Why a comparison came to its end.
#[derive(Clone, Copy)]
pub enum Met {
    /// A read of the file failed.
    Failed,
    /// The file gave nothing at `at`, below its `size`.
    Short { at: u64, size: u64 },
    OutOfMemory,
}

/// A sink that compares what it is given with the bytes of a file. From the first byte on that isn't the file's it keeps what it is
/// given, and goes on taking it.
pub struct Comparing<S: Source> {
    pub(crate) src: S,
    /// How many of the file's bytes were given.
    pub(crate) place: u64,
    /// What was given behind them, which isn't the file's.
    pub(crate) other: Vec<u8>,
    pub(crate) met: Option<Met>,
    pub(crate) failed: u64,
}

impl<S: Source> Model for Comparing<S> {
    ghost use Rattle.compared_files.specs.Comparing.{ComparingValue, IsKept};

    ghost Value = { ComparingValue S };

    ghost view = { λ x. record { src = x.src; place = x.place; other = x.other.items; met = x.met; failed = x.failed } };

    ghost invariant = { λ x. IsKept (S.told x.src) (S.ends x.src) (S.size x.src) (S.offset x.src) (S.faults x.src)
        (record { src = x.src; place = x.place; other = x.other.items; met = x.met; failed = x.failed }) };
}

impl<S: Source> Comparing<S> {
    /// A file that was just opened, of which nothing was given.
    pub fn new(alloc: Global, src: S) -> Comparing<S>
        requires { S.offset src ≡ 0 }
        ensures { result ≡ record { src = src; place = 0; other = []; met = None; failed = 0 } }
    {
        Comparing {
            src,
            place: 0,
            other: Vec::new(alloc),
            met: None,
            failed: 0,
        }
    }

    /// Whether a byte was given that isn't the file's. Where the file tells its bytes, it then doesn't begin with what was given.
    pub fn differs(&self) -> bool
        ensures differs { IsTrue result → WhereTold (S.told self.now.src) (λ known. IsFrontless known (given_by known self.now)) }
        ensures same { IsFalse result → self.now.other ≡ [] }
    {
        // The proof learns from it that a file which tells its bytes has as many.
        let _size = self.src.size();
        !self.other.is_empty()
    }

    /// Whether what was given is all of the file.
    pub fn is_whole(&self) -> bool
        ensures whole { IsTrue result → told_by (S.told self.now.src) self.now ≡ S.told self.now.src }
        ensures other { IsFalse result → WhereTold (S.told self.now.src) (λ known. given_by known self.now ≡ known → ⊥) }
        ensures given { IsTrue result → IsGivenToEnd (S.told self.now.src) (S.ends self.now.src) }
    {
        let size = self.src.size();
        self.other.is_empty() && self.place == size
    }

    /// Why no more is taken, if that is so.
    pub fn met(&self) -> Option<Met>
        ensures met { result ≡ self.now.met }
        ensures cause { HasMet (S.faults self.now.src) (S.size self.now.src) (S.ends self.now.src) result }
        ensures unmet { result ≡ None → self.now.failed ≡ 0 }
        ensures whole { WhereTold (S.told self.now.src) (λ known. S.size self.now.src ≡ length known) }
    {
        // The proof learns from it that a file which tells its bytes has as many.
        let _size = self.src.size();
        self.met
    }

    /// The file.
    pub fn into_source(self) -> S
        ensures { result ≡ self.src }
    {
        let Comparing {
            src,
            place: _,
            other: _,
            met: _,
            failed: _,
        } = self;
        src
    }
}
