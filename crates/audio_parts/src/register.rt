//! The register of a part: the bytes that came into one step.
ghost use Rattle.std.specs.Prelude.{◌≡◌, ◌≤◌, true, false, length, take, replicate, vec_len, IfOk};
ghost use Rattle.audio_parts.specs.Registers.{front_of};

use crate::OutOfMemory;
use std::alloc::Global;

/// The bytes that came into one step. As long as nothing came they count as zeros, and are those of
/// an earlier step.
#[derive(Drop)]
pub(crate) struct Register {
    pub(crate) bytes: Vec<u8>,
    /// Nothing came in this step.
    pub(crate) silent: bool,
    ghost room: { vec_len bytes ≡ 8192 },
}

impl Register {
    /// Nothing came yet.
    pub(crate) fn new(alloc: Global) -> Result<Register, OutOfMemory>
        ensures { IfOk result (λ register. register.silent ≡ true) }
    {
        Ok(Register {
            bytes: vec![in alloc; 0; 8192]?,
            silent: true,
        })
    }

    /// A step begins, into which nothing came.
    pub(crate) fn begin(&mut self)
        ensures { self.new.silent ≡ true }
    {
        self.silent = true;
    }

    /// Writes a piece of so many bytes to the front.
    pub(crate) fn set(&mut self, piece: &[u8], count: usize)
        requires piece { length piece.now ≡ count }
        requires room { count ≤ 8192 }
        ensures { front_of self.new.silent count self.new.bytes.items ≡ piece.now }
    {
        set_front(&mut self.bytes, piece, count);
        self.silent = false;
    }

    /// The front of so many bytes is written, with zeros if nothing came.
    pub(crate) fn settle(&mut self, count: usize)
        requires { count ≤ 8192 }
        ensures front { take count self.new.bytes.items ≡ front_of self.old.silent count self.old.bytes.items }
        ensures settled { self.new.silent ≡ false }
    {
        if self.silent {
            clear_front(&mut self.bytes, count);
            self.silent = false;
        }
    }
}

/// Sets the front to zeros.
fn clear_front(register: &mut [u8], count: usize)
    requires { count ≤ length register.old }
    ensures { take count register.new ≡ replicate count 0 }
{
    register[..count].fill(0);
}

/// Writes a piece of so many bytes to the front.
fn set_front(register: &mut [u8], piece: &[u8], count: usize)
    requires piece { length piece.now ≡ count }
    requires room { count ≤ length register.old }
    ensures { take count register.new ≡ piece.now }
{
    register[..count].copy_from_slice(piece);
}
