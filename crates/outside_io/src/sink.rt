//! The trait of sinks: a write takes a front of a piece, and failed calls are counted.

ghost use Rattle.std.specs.Prelude.{◌≡◌, ℕ, ◌<◌, List, length, take, Option, IfOk, OnErr, option_map};
ghost use Rattle.std.specs.Io.{WritesAtMost};
ghost use Rattle.std.specs.Io.KnownBytes.{append_known};
ghost use Rattle.outside_io.specs.Causes.{HasCause};
ghost use Rattle.outside_io.specs.Writings.{after};
ghost use Rattle.outside_io.specs.declared.writing.Writing.{Writing};

use crate::Failed;

/// Bytes that are written one after another. It takes at least one byte of a piece, or fails and has taken nothing.
pub trait Sink {
    /// What it has taken, where it tells that.
    ghost told: { Self → Option (List ℕ) };

    /// The name under which it was opened.
    ghost name: { Self → List ℕ };

    /// How many of its calls failed.
    ghost faults: { Self → ℕ };

    /// How its writes went, where it tells that.
    ghost writing: { Self → Option Writing };

    fn faults(&self) -> u64
        ensures { result ≡ faults self.now };

    /// Takes a front of `piece`, and answers how long it was.
    fn write(&mut self, piece: &[u8]) -> Result<usize, Failed>
        requires { 0 < length piece.now }
        ensures bound { WritesAtMost result piece.now }
        ensures some { IfOk result (λ count. 0 < count) }
        ensures taken { IfOk result (λ count. told self.new ≡ append_known (told self.old) (take count piece.now)) }
        ensures kept { OnErr result (told self.new ≡ told self.old) }
        ensures name { name self.new ≡ name self.old }
        ensures cause { HasCause (faults self.old) (faults self.new) result }
        ensures writing { writing self.new ≡ option_map (after result) (writing self.old) };
}
