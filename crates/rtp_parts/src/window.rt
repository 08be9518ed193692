//! The window of 64 packets: arrivals are numbered, found late, repeated or accepted, and given out in order.

ghost use Rattle.std.specs.Prelude.{◌≡◌, ◌⊎◌, ℕ, ◌+◌, ◌*◌, ◌==◌, ◌++◌, take, drop, ◌≤◌, ◌<◌, ◌^◌, [], ◌∷◌, true, length, map, vec_len, IfSome, IfNone, OnOk};
ghost use Rattle.std.specs.Option.{option_to_list};
ghost use Rattle.std.specs.List.{All, list_any};
ghost use Rattle.std.specs.VecDeque.{deque_len};
ghost use Rattle.rtp_parts.specs.declared.window.Held.{Held};
ghost use Rattle.rtp_parts.specs.Sorting.{nearest};

use outside_io::OutOfMemory;
use std::alloc::Global;
use std::collections::VecDeque;

/// A packet is late where its number plus this isn't above the greatest one before it.
const SIZE: u64 = 64;

/// A packet that was accepted.
#[derive(Drop)]
pub(crate) struct Held {
    pub(crate) number: u64,
    pub(crate) timestamp: u32,
    pub(crate) payload: Vec<u8>,
}

/// The accepted packets that aren't given out yet, by rising number.
#[derive(Drop)]
pub(crate) struct Window {
    pub(crate) greatest: u64,
    pub(crate) held: VecDeque<Held>,
    pub(crate) accepted: u64,
    pub(crate) late: u64,
    pub(crate) repeated: u64,
    ghost low: { 65536 ≤ greatest },
    ghost near: { greatest ≤ 131072 + 32768 * (accepted + late + repeated) },
    ghost most: { All (λ (h : Held). h.number ≤ greatest) held.items },
    ghost short: { All (λ (h : Held). vec_len h.payload ≤ 4096) held.items },
}

impl Window {
    ghost use Rattle.rtp_parts.specs.Sorting.{Numbered, placed};
    ghost use Rattle.rtp_parts.specs.Steps.{numbered_of, line_of, line_step, line_kept, with_first};

    pub(crate) fn new(alloc: Global) -> Window
        ensures line { line_of result ≡ record { greatest = 65536; line = []; accepted = 0; late = 0; repeated = 0 } }
        ensures empty { result.held.items ≡ [] }
        ensures len { deque_len result.held ≡ 0 }
    {
        Window {
            greatest: 65_536,
            held: VecDeque::new(alloc),
            accepted: 0,
            late: 0,
            repeated: 0,
        }
    }

    /// Numbers what arrives from the first packet's sequence number on.
    pub(crate) fn start(&mut self, sequence: u16)
        requires { self.old.held.items ≡ [] }
        ensures line { line_of self.new ≡ record (line_of self.old) { greatest = 65536 + sequence } }
        ensures counts { (self.new.accepted ≡ self.old.accepted) × (self.new.late ≡ self.old.late) × (self.new.repeated ≡ self.old.repeated) }
        ensures held { deque_len self.new.held ≡ deque_len self.old.held }
    {
        self.greatest = 65_536 + u64::from(sequence);
    }

    /// Judges an arrival, and keeps it where it is accepted.
    pub(crate) fn arrive(
        &mut self,
        alloc: Global,
        sequence: u16,
        timestamp: u32,
        payload: &[u8],
    ) -> Result<(), OutOfMemory>
        requires short { length payload.now ≤ 4096 }
        requires few { self.old.accepted + self.old.late + self.old.repeated < 2 ^ 40 }
        ensures judged { OnOk result (line_of self.new ≡ line_step (line_of self.old) sequence timestamp payload.now) }
        ensures counts { self.new.accepted + self.new.late + self.new.repeated ≤ self.old.accepted + self.old.late + self.old.repeated + 1 }
        ensures held { deque_len self.new.held ≤ deque_len self.old.held + 1 }
    {
        let number = nearest(self.greatest, sequence);
        if number + SIZE <= self.greatest {
            self.late += 1;
            return Ok(());
        }
        if number > self.greatest {
            return self.push(alloc, number, timestamp, payload);
        }
        if self.has(number) {
            self.repeated += 1;
            return Ok(());
        }
        self.insert(alloc, number, timestamp, payload)
    }

    /// The first packet, where none of a lesser number can be accepted any more.
    pub(crate) fn due(&mut self, ended: bool) -> Option<Held>
        requires { self.old.greatest < 2 ^ 60 }
        ensures given { IfSome result (λ held. line_of self.old ≡ with_first (numbered_of held) (line_of self.new)) }
        ensures due { IfSome result (λ held. (ended ≡ true) ⊎ (held.number + 64 ≤ self.old.greatest)) }
        ensures held { deque_len self.new.held + length (option_to_list result) ≡ deque_len self.old.held }
        ensures short { IfSome result (λ held. vec_len held.payload ≤ 4096) }
        ensures counts { (self.new.accepted ≡ self.old.accepted) × (self.new.late ≡ self.old.late) × (self.new.repeated ≡ self.old.repeated) }
        ensures kept { IfNone result (line_of self.new ≡ line_of self.old) }
        ensures empty { ended ≡ true → IfNone result (self.new.held.items ≡ []) }
    {
        match self.held.front() {
            None => None,
            Some(first) => {
                if ended || first.number + SIZE <= self.greatest {
                    self.held.pop_front()
                } else {
                    None
                }
            }
        }
    }

    fn has(&self, number: u64) -> bool
        ensures { result ≡ list_any (λ (h : Held). h.number == number) self.now.held.items }
    {
        self.held.iter().any(|held| held.number == number)
    }

    /// Keeps a packet whose number is above all others.
    fn push(
        &mut self,
        alloc: Global,
        number: u64,
        timestamp: u32,
        payload: &[u8],
    ) -> Result<(), OutOfMemory>
        requires above { self.old.greatest < number }
        requires near { number ≤ self.old.greatest + 32768 }
        requires short { length payload.now ≤ 4096 }
        requires few { self.old.accepted + self.old.late + self.old.repeated < 2 ^ 40 }
        ensures kept { OnOk result (line_of self.new ≡ line_kept (line_of self.old) number timestamp payload.now) }
        ensures counts { self.new.accepted + self.new.late + self.new.repeated ≤ self.old.accepted + self.old.late + self.old.repeated + 1 }
        ensures held { deque_len self.new.held ≤ deque_len self.old.held + 1 }
    {
        let held = Held {
            number,
            timestamp,
            payload: payload.to_vec(alloc)?,
        };
        self.held.push_back(held)?;
        self.greatest = number;
        self.accepted += 1;
        Ok(())
    }

    /// The place of a number before the greater ones.
    fn place_of(&self, number: u64) -> usize
        ensures within { result ≤ deque_len self.now.held }
        ensures place { (a : Numbered) → a.number ≡ number → placed a (map numbered_of self.now.held.items)
            ≡ map numbered_of (take result self.now.held.items) ++ a ∷ map numbered_of (drop result self.now.held.items) }
    {
        let mut place = 0;
        while place < self.held.len() && self.held[place].number < number {
            place += 1;
        }
        place
    }

    /// Keeps a packet before those of greater numbers.
    fn insert(
        &mut self,
        alloc: Global,
        number: u64,
        timestamp: u32,
        payload: &[u8],
    ) -> Result<(), OutOfMemory>
        requires below { number ≤ self.old.greatest }
        requires short { length payload.now ≤ 4096 }
        requires few { self.old.accepted + self.old.late + self.old.repeated < 2 ^ 40 }
        ensures kept { OnOk result (line_of self.new ≡ line_kept (line_of self.old) number timestamp payload.now) }
        ensures counts { self.new.accepted + self.new.late + self.new.repeated ≤ self.old.accepted + self.old.late + self.old.repeated + 1 }
        ensures held { deque_len self.new.held ≤ deque_len self.old.held + 1 }
    {
        let held = Held {
            number,
            timestamp,
            payload: payload.to_vec(alloc)?,
        };
        let place = self.place_of(number);
        self.held.insert(place, held)?;
        self.accepted += 1;
        Ok(())
    }
}

/// The number nearest to the greatest one that has these lower 16 bits.
fn nearest(greatest: u64, sequence: u16) -> u64
    requires low { 65536 ≤ greatest }
    requires high { greatest < 2 ^ 60 }
    ensures number { result ≡ nearest greatest sequence }
    ensures near { result ≤ greatest + 32768 }
{
    let least = greatest - 32_767;
    least + (u64::from(sequence) + 65_536 - least % 65_536) % 65_536
}
