//! The trait of sources, with size, offset, reads and seeks, and the error of a failed call.

ghost use Rattle.std.specs.Prelude.{◌≡◌, ℕ, ◌+◌, ◌<◌, ◌≤◌, max, min, List, length, take, drop, Option, IfOk, OnOk};
ghost use Rattle.std.specs.Io.{ReadsAtMost};
ghost use Rattle.outside_io.specs.Asking.{asked_up_to};
ghost use Rattle.outside_io.specs.Causes.{HasCause};
ghost use Rattle.outside_io.specs.Moves.{WhereTold};

/// A read, a seek, a write or a closing that failed, and was counted.
#[derive(Clone, Copy, Debug, PartialEq, Eq)]
pub struct Failed;

/// Bytes that are read from an offset on. Its size stays the same for its life. A source that gives 0 bytes below its
/// size is short, which is no fault. After a fault its offset is free, within its size.
pub trait Source {
    /// All its bytes, where it tells them.
    ghost told: { Self → Option (List ℕ) };

    /// The name under which it was opened.
    ghost name: { Self → List ℕ };

    /// The offset from which on it gives nothing, where it tells that.
    ghost ends: { Self → Option ℕ };

    /// How many bytes it has.
    ghost size: { Self → ℕ };

    /// Where it stands, which is never above its size.
    ghost offset: { Self → ℕ };

    /// The greatest offset up to which a read asked for bytes, where it tells that. A read asks for as many as there is
    /// room for.
    ghost asked: { Self → Option ℕ };

    /// How many of its calls failed.
    ghost faults: { Self → ℕ };

    fn size(&self) -> u64
        ensures value { result ≡ size self.now }
        ensures within { offset self.now ≤ size self.now }
        ensures told { WhereTold (told self.now) (λ bytes. size self.now ≡ length bytes) };

    fn offset(&self) -> u64
        ensures value { result ≡ offset self.now }
        ensures within { offset self.now ≤ size self.now };

    fn faults(&self) -> u64
        ensures { result ≡ faults self.now };

    /// Puts the next bytes at the front of `buf`, and answers how many.
    fn read(&mut self, buf: &mut [u8]) -> Result<usize, Failed>
        requires { 0 < length buf.old }
        ensures bound { ReadsAtMost result buf.new }
        ensures told { told self.new ≡ told self.old }
        ensures name { name self.new ≡ name self.old }
        ensures ends { ends self.new ≡ ends self.old }
        ensures size { size self.new ≡ size self.old }
        ensures offset { IfOk result (λ count. offset self.new ≡ offset self.old + count) }
        ensures within { offset self.new ≤ size self.new }
        ensures bytes { WhereTold (told self.old) (λ bytes. IfOk result (λ count.
            take count buf.new ≡ take count (drop (offset self.old) bytes))) }
        ensures gives { WhereTold (ends self.old) (λ end. IfOk result (λ count.
            offset self.old < min end (size self.old) → 0 < count)) }
        ensures stops { WhereTold (ends self.old) (λ end. OnOk result (
            offset self.new ≤ max end (offset self.old))) }
        ensures asked { asked self.new ≡ asked_up_to (asked self.old) (offset self.old + length buf.old) }
        ensures cause { HasCause (faults self.old) (faults self.new) result };

    fn seek_to(&mut self, to: u64) -> Result<(), Failed>
        requires { to ≤ size self.old }
        ensures told { told self.new ≡ told self.old }
        ensures name { name self.new ≡ name self.old }
        ensures ends { ends self.new ≡ ends self.old }
        ensures size { size self.new ≡ size self.old }
        ensures reached { OnOk result (offset self.new ≡ to) }
        ensures within { offset self.new ≤ size self.new }
        ensures asked { asked self.new ≡ asked self.old }
        ensures cause { HasCause (faults self.old) (faults self.new) result };
}
