//! The memory of a header: a client's own bytes, or a block of the graph's region.

ghost use Rattle.std.specs.Prelude.{◌≡◌, ◌≤◌, length};
ghost use Rattle.std.specs.Borrow.{sem};
ghost use Rattle.il_machine.specs.Lists.{overwritten};
ghost use Rattle.header_core.specs.Lending.{lends_memory};
ghost use Rattle.header_core.specs.Blocks.{block_over};

use block_region::{Block, Region};
use std::marker::Model;

/// The bytes of a client's buffer.
#[derive(Drop)]
pub struct Memory {
    bytes: Vec<u8>,
}

impl Model for Memory {
    ghost use Rattle.std.specs.Prelude.{List, ℕ};

    ghost Value = { List ℕ };

    ghost view = { λ m. m.bytes.items };
}

impl Memory {
    /// Memory of the client's, of all these bytes.
    pub fn new(bytes: Vec<u8>) -> Memory
        ensures { result ≡ bytes.items }
    {
        Memory { bytes }
    }

    /// Gives the client its bytes back.
    pub fn into_bytes(self) -> Vec<u8>
        ensures { result.items ≡ self }
    {
        self.bytes
    }

    /// All its bytes, to be read.
    pub fn as_slice(&self) -> &[u8]
        ensures { result.now ≡ self.now }
    {
        self.bytes.as_slice()
    }

    /// All its bytes, to be written.
    pub(crate) fn as_mut_slice(&mut self) -> &mut [u8]
        ensures* writes_back { sem 𝓛 (lends_memory self.entry result) }
        ensures bytes { result.now ≡ self.old }
    {
        self.bytes.as_mut_slice()
    }

    /// Writes the bytes over the front.
    pub(crate) fn overwrite(&mut self, front: &[u8])
        requires { length front.now ≤ length self.old }
        ensures { self.new ≡ overwritten front.now self.old }
    {
        overwrite_front(self.bytes.as_mut_slice(), front);
    }
}

fn overwrite_front(bytes: &mut [u8], front: &[u8])
    requires { length front.now ≤ length bytes.old }
    ensures { bytes.new ≡ overwritten front.now bytes.old }
{
    bytes[..front.len()].copy_from_slice(front);
}

/// Writes the bytes over the front of the block.
fn overwrite_block(block: &mut Block, front: &[u8])
    requires { length front.now ≤ length block.old.bytes }
    ensures { block.new ≡ block_over front.now block.old }
{
    overwrite_front(block.bytes_mut(), front);
}

/// A header's memory: the client's own, or a block of the graph's region. It can't be let go: who has one takes it apart, and a block
/// goes back to its region.
pub enum Store {
    Own(Memory),
    Region(Block),
}

impl Store {
    ghost use Rattle.std.specs.Prelude.{◌+◌, ◌<◌, is_some, not, MatchOption, None};
    ghost use Rattle.il_machine.specs.Headers.{weight};
    ghost use Rattle.header_core.specs.Blocks.{IsSameRegion};
    ghost use Rattle.header_core.specs.Keys.{key_number};
    ghost use Rattle.header_core.specs.BufferHeader.{IsOfKey, bytes_of, is_clients, own_memory, with_bytes};
    ghost use Rattle.header_core.specs.LendingStore.{lends_store};

    /// The client's own memory, or a free block of the region where there is none.
    pub fn of(region: &mut Region, memory: Option<Memory>) -> Store
        requires { memory ≡ None → 0 < region.old.free }
        ensures own { own_memory result ≡ memory }
        ensures clients { is_clients result ≡ is_some memory }
        ensures bytes { MatchOption memory (length (bytes_of result) ≡ region.old.key.size) (λ bytes. bytes_of result ≡ bytes) }
        ensures of_key { IsOfKey (key_number region.old.key) result }
        ensures same { IsSameRegion region.old region.new }
        ensures free { region.new.free + weight (not (is_some memory)) ≡ region.old.free }
    {
        match memory {
            Some(memory) => Store::Own(memory),
            None => match region.take() {
                Some(block) => Store::Region(block),
                None => unreachable!(),
            },
        }
    }

    /// All its bytes, to be written.
    pub(crate) fn bytes_mut(&mut self) -> &mut [u8]
        ensures* writes_back { sem 𝓛 (lends_store self.entry result) }
        ensures bytes { result.now ≡ bytes_of self.old }
    {
        match self {
            Store::Own(memory) => memory.as_mut_slice(),
            Store::Region(block) => block.bytes_mut(),
        }
    }

    /// Whether the client gave the memory. Else it is a block of the region.
    pub fn is_clients(&self) -> bool
        ensures { result ≡ is_clients self.now }
    {
        match self {
            Store::Own(_) => true,
            Store::Region(_) => false,
        }
    }

    /// All its bytes.
    pub fn bytes(&self) -> &[u8]
        ensures { result.now ≡ bytes_of self.now }
    {
        match self {
            Store::Own(memory) => memory.as_slice(),
            Store::Region(block) => block.bytes(),
        }
    }

    /// Writes the bytes over the front.
    pub(crate) fn overwrite(&mut self, front: &[u8])
        requires { length front.now ≤ length (bytes_of self.old) }
        ensures { self.new ≡ with_bytes (overwritten front.now (bytes_of self.old)) self.old }
    {
        match self {
            Store::Own(memory) => memory.overwrite(front),
            Store::Region(block) => overwrite_block(block, front),
        }
    }
}
