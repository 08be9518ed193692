//! A region of blocks is made, its free blocks are taken and given back, and it is closed.

ghost use Rattle.std.specs.Prelude.{◌≡◌, ◌+◌, ◌*◌, ◌≤◌, ◌↔◌, false, None, IsNone, IfOk, IfSome, length};
ghost use Rattle.block_region.specs.Regions.{IsFresh, outs, homes, is_home, IsTaken, given_back, AllHome};

use crate::block::Block;
use crate::memory::{Sole, attach, detach, house, house_zeros, vacate};
use crate::roster::{Place, Roster};
use core::mem::replace_with;
use std::alloc::{AllocError, Global};
use std::marker::Model;

/// Want of memory.
pub type OutOfMemory = AllocError;

/// The blocks of one allocation. It is spent by `close`.
pub struct Region {
    base: *mut u8,
    size: u32,
    blocks: u32,
    // how many blocks ever were out: those of the least numbers
    begun: u32,
    bytes: Sole<Global>,
    roster: Roster,
    free: Vec<Place>,
}

impl Model for Region {
    ghost use Rattle.std.specs.Prelude.{◌≡◌, ◌+◌, ◌-◌, ◌*◌, ◌≤◌, true, All, ◌++◌, length, replicate, vec_capacity};
    ghost use denote.RawPtr.{block_ptr};
    ghost use Rattle.block_region.specs.Regions.{BlockRegion, homes};

    ghost Value = { BlockRegion };

    ghost view = { λ r. record { key = r.roster.key; blocks = r.blocks; home = r.roster.home ++ replicate (r.blocks - r.begun) true; free = length r.free.items + (r.blocks - r.begun) } };

    ghost invariant = { λ r. (r.base ≡ block_ptr r.roster.key.object r.roster.key.start) × (r.size ≡ r.roster.key.size) × (r.blocks ≡ length r.roster.key.names) × (1 ≤ r.size) × (r.blocks * r.size ≤ 4194304) × (r.bytes.ptr ≡ r.base) × (r.bytes.len ≡ r.blocks * r.size) × (homes r.roster.home ≡ length r.free.items) × (length r.roster.home ≡ r.begun) × (r.begun ≤ r.blocks) × (r.blocks ≤ vec_capacity r.free) × All (λ p. (p.ticket.key ≡ r.roster.key) × (p.ticket.home ≡ true) × (p.number + 1 ≤ r.begun)) r.free.items };
}

// Nothing else reaches what `base` points to.
unsafe impl Send for Region {}

impl Region {
    /// A region of so many blocks, each of `size` bytes, all at home. It takes their memory by one allocation, and beside it
    /// what it counts them by. None of it is written here.
    pub fn new(alloc: Global, blocks: u32, size: u32) -> Result<Region, OutOfMemory>
        requires some { 1 ≤ blocks }
        requires sized { 1 ≤ size }
        requires limit { blocks * size ≤ 4194304 }
        ensures { IfOk result (λ r. IsFresh blocks size r) }
    {
        let mut bytes = Vec::with_capacity(alloc, blocks as usize * size as usize)?;
        let free = Vec::with_capacity(alloc, blocks as usize)?;
        let base = bytes.as_mut_ptr();
        let (room, bytes) = detach(bytes);
        Ok(Region {
            base,
            size,
            blocks,
            begun: 0,
            bytes,
            roster: Roster::open(room, blocks, size),
            free,
        })
    }

    /// A block that was free, or none exactly where no block is free. One that was never out is zeros, and is written here.
    pub fn take(&mut self) -> Option<Block>
        ensures none { IsNone result ↔ (self.old.free ≡ 0) }
        ensures unchanged { IsNone result → self.new ≡ self.old }
        ensures taken { IfSome result (λ b. IsTaken self.old b self.new) }
    {
        let size = self.size as usize;
        match self.free.pop() {
            Some(Place { number, ticket }) => {
                let (ticket, run) = replace_with(&mut self.roster, ticket, Roster::lend);
                let at = unsafe { self.base.byte_add(number as usize * size) };
                Some(Block {
                    place: Place { number, ticket },
                    bytes: house(at, size, run),
                })
            }
            None => {
                let number = self.begun;
                if number == self.blocks {
                    return None;
                }
                let (ticket, room) = replace_with(&mut self.roster, number, Roster::begin);
                self.begun = number + 1;
                let at = unsafe { self.base.byte_add(number as usize * size) };
                Some(Block {
                    place: Place { number, ticket },
                    bytes: house_zeros(at, size, room),
                })
            }
        }
    }

    /// Takes a block of this region home.
    pub fn give(&mut self, block: Block)
        requires { block.key ≡ self.old.key }
        ensures was_out { is_home self.old.home block.number ≡ false }
        ensures given { self.new ≡ given_back self.old block.number }
    {
        let Block { place, bytes } = block;
        let Place { number, ticket } = place;
        let ticket = replace_with(&mut self.roster, (ticket, vacate(bytes)), Roster::put);
        self.free.push_reserved(Place { number, ticket });
    }

    /// How many blocks are at home.
    pub fn free(&self) -> u32
        ensures free { result ≡ self.now.free }
        ensures counted { result ≡ homes self.now.home }
        ensures whole { result + outs self.now.home ≡ self.now.blocks }
    {
        self.free.len() as u32 + (self.blocks - self.begun)
    }

    /// Spends the region, once every block is home, and gives its memory back.
    pub fn close(self)
        requires { AllHome self }
    {
        let Region {
            base: _,
            size: _,
            blocks: _,
            begun: _,
            bytes,
            roster,
            free: _free,
        } = self;
        drop(attach(roster.whole(), bytes));
    }
}
