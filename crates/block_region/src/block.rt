//! A block that is out of its region, and its bytes, to be read or written.

ghost use Rattle.std.specs.Prelude.{◌≡◌, length};
ghost use Rattle.std.specs.Borrow.{sem};
ghost use Rattle.block_region.specs.Lending.{lends_bytes};

use crate::roster::Place;
use std::marker::Model;
use std_alloc::vec::Lodged;

/// A block that is out of its region. It goes back by `Region::give`.
pub struct Block {
    pub(crate) place: Place,
    pub(crate) bytes: Vec<u8, Lodged>,
}

impl Model for Block {
    ghost use Rattle.std.specs.Prelude.{◌≡◌, false};
    ghost use Rattle.block_region.specs.Regions.{RegionBlock, IsOut};

    ghost Value = { RegionBlock };

    ghost view = { λ b. record { key = b.place.ticket.key; number = b.place.number; bytes = b.bytes.items } };

    ghost invariant = { λ b. (b.place.ticket.home ≡ false) × IsOut b.place.ticket.key b.place.number b.bytes.ptr b.bytes.len };
}

impl Block {
    /// Its bytes, as many as a block of the region has. A block that was just taken has what its last holder left, or zeros.
    pub fn bytes(&self) -> &[u8]
        ensures bytes { result.now ≡ self.now.bytes }
        ensures size { length result.now ≡ self.now.key.size }
    {
        self.bytes.as_slice()
    }

    /// Its bytes, to be written.
    pub fn bytes_mut(&mut self) -> &mut [u8]
        ensures* writes_back { sem 𝓛 (lends_bytes self.entry result) }
        ensures bytes { result.now ≡ self.old.bytes }
        ensures size { length result.now ≡ self.old.key.size }
    {
        self.bytes.as_mut_slice()
    }
}
