//! A buffer header: its content, flags and mark, and how it is made, changed and spent.

ghost use Rattle.std.specs.Prelude.{◌≡◌, ◌+◌, ◌<◌, ◌≤◌, is_some, length, not, Ok, Err, OnOk, OnErr};
ghost use Rattle.std.specs.Borrow.{sem};
ghost use Rattle.il_machine.specs.Headers.{weight};
ghost use Rattle.header_core.specs.Blocks.{IsSameRegion};
ghost use Rattle.header_core.specs.Keys.{key_number};
ghost use Rattle.header_core.specs.LendingHeader.{lends_content};
ghost use Rattle.header_core.specs.BufferHeader.{bytes_of, is_clients, own_memory, fresh, filled, cleared, marked, with_mark, advanced, IsOfKey, IsSized};

use crate::key::Key;
use crate::memory::{Memory, Store};
use block_region::Region;
use il_machine::Mark;
use std::marker::Model;

/// More bytes than the header's size.
#[derive(Clone, Copy, Debug, PartialEq, Eq)]
pub struct TooLong {
    pub size: u32,
}

/// A buffer's header with its memory (OpenMAX IL 1.1.2, `OMX_BUFFERHEADERTYPE`). It is spent by `into_memory`, or by `into_store`.
pub struct Header {
    key: Key,
    number: u64,
    store: Store,
    size: u32,
    start: u32,
    used: u32,
    flags: u32,
    mark: Option<Mark>,
}

impl Model for Header {
    ghost use Rattle.std.specs.Prelude.{◌≤◌, length, slice_range};
    ghost use Rattle.header_core.specs.BufferHeader.{BufferHeader, IsOfKey, bytes_of, own_memory};

    ghost Value = { BufferHeader };

    ghost view = { λ h. record {
      key = h.key;
      held = record { number = h.number; size = h.size; content = slice_range (bytes_of h.store) h.start h.used; flags = h.flags; mark = h.mark; memory = own_memory h.store };
      store = h.store;
    } };

    ghost invariant = { λ h. (1 ≤ h.size) × (h.size ≤ 4096) × (h.size ≤ length (bytes_of h.store)) × (h.start ≤ h.used) × (h.used ≤ h.size) × IsOfKey h.key h.store };
}

impl Header {
    /// A header without content, flags and mark.
    pub fn new(key: Key, id: u64, store: Store, size: u32) -> Header
        requires some { 1 ≤ size }
        requires limit { size ≤ 4096 }
        requires room { size ≤ length (bytes_of store) }
        requires of_key { IsOfKey key store }
        ensures { result ≡ fresh key id store size }
    {
        Header {
            key,
            number: id,
            store,
            size,
            start: 0,
            used: 0,
            flags: 0,
            mark: None,
        }
    }

    /// Its number, which no other header of the graph has.
    pub fn id(&self) -> u64
        ensures { result ≡ self.now.held.number }
    {
        self.number
    }

    /// How many bytes it takes, which may be fewer than its memory has.
    pub fn size(&self) -> u32
        ensures size { result ≡ self.now.held.size }
        ensures sized { IsSized self.now }
    {
        self.size
    }

    /// The flags that its holder gave it: bit 0 tells the end of the stream.
    pub fn flags(&self) -> u32
        ensures { result ≡ self.now.held.flags }
    {
        self.flags
    }

    /// The mark that it carries on.
    pub fn mark(&self) -> Option<Mark>
        ensures { result ≡ self.now.held.mark }
    {
        self.mark
    }

    /// The bytes that count.
    pub fn content(&self) -> &[u8]
        ensures content { result.now ≡ self.now.held.content }
        ensures within { length result.now ≤ self.now.held.size }
    {
        &self.store.bytes()[self.start as usize..self.used as usize]
    }

    /// Takes the bytes as its content, with their flags, whose lowest bit is the end of the stream. A mark stays. More bytes than
    /// its size are refused, and then it stays as it was.
    pub fn fill(&mut self, bytes: &[u8], flags: u32) -> Result<(), TooLong>
        ensures filled { OnOk result (self.new ≡ filled bytes.now flags self.old) }
        ensures fits { length bytes.now ≤ self.old.held.size → result ≡ Ok tt }
        ensures too_long { self.old.held.size < length bytes.now → result ≡ Err (record { size = self.old.held.size }) }
        ensures unchanged { OnErr result (self.new ≡ self.old) }
    {
        if bytes.len() > self.size as usize {
            return Err(TooLong { size: self.size });
        }
        self.store.overwrite(bytes);
        self.start = 0;
        self.used = bytes.len() as u32;
        self.flags = flags;
        Ok(())
    }

    /// Gives out all its memory to be written, of which the first so many bytes are its content, with the flags. A mark stays.
    pub fn refill(&mut self, bytes: u32, new_flags: u32) -> &mut [u8]
        requires { bytes ≤ self.old.held.size }
        ensures* writes_back { sem 𝓛 (lends_content self.entry bytes new_flags result) }
        ensures memory { result.now ≡ bytes_of self.old.store }
        ensures room { self.old.held.size ≤ length result.now }
    {
        self.start = 0;
        self.used = bytes;
        self.flags = new_flags;
        self.store.bytes_mut()
    }

    /// Takes content, flags and mark away.
    pub fn clear(&mut self)
        ensures { self.new ≡ cleared self.old }
    {
        self.start = 0;
        self.used = 0;
        self.flags = 0;
        self.mark = None;
    }

    /// Sets the mark, in place of one that it may have.
    pub fn mark_with(&mut self, mark: Mark)
        ensures { self.new ≡ marked mark self.old }
    {
        self.mark = Some(mark);
    }

    /// Sets the mark, or takes it away.
    pub fn set_mark(&mut self, mark: Option<Mark>)
        ensures { self.new ≡ with_mark mark self.old }
    {
        self.mark = mark;
    }

    /// Drops so many bytes at the front of the content.
    pub fn advance(&mut self, bytes: u32)
        requires { bytes ≤ length self.old.held.content }
        ensures { self.new ≡ advanced bytes self.old }
    {
        self.start += bytes;
    }

    /// Spends the header and gives its memory back.
    pub fn into_store(self) -> Store
        ensures store { result ≡ self.store }
        ensures memory { own_memory result ≡ self.held.memory }
        ensures of_key { IsOfKey self.key result }
    {
        let Header {
            key: _,
            number: _,
            store,
            size: _,
            start: _,
            used: _,
            flags: _,
            mark: _,
        } = self;
        store
    }

    /// Spends the header. Its block goes home, and memory of the client's own comes back.
    pub fn into_memory(self, region: &mut Region) -> Option<Memory>
        requires { self.key ≡ key_number region.old.key }
        ensures memory { result ≡ self.held.memory }
        ensures own { is_some result ≡ is_clients self.store }
        ensures same { IsSameRegion region.old region.new }
        ensures free { region.new.free ≡ region.old.free + weight (not (is_clients self.store)) }
    {
        match self.into_store() {
            Store::Own(memory) => Some(memory),
            Store::Region(block) => {
                region.give(block);
                None
            }
        }
    }
}
