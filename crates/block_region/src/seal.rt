//! A region's key as ghost state, which is taken from the region and which any thread may hold.

ghost use Rattle.std.specs.Prelude.{◌≡◌};
ghost use base.Fml.{ftrue};
ghost use Rattle.block_region.specs.Regions.{RegionKey};
ghost use Rattle.block_region.specs.Ownership.{key_code};

use crate::region::Region;
use std::marker::Model;

/// The key of a region, for what goes with its blocks. At run time it is nothing.
#[derive(Drop)]
pub struct Seal {
    pub ghost key: { RegionKey } by { key_code },
}

impl Model for Seal {
    ghost also_owns = { λ _. ftrue };
}

// It is no more than ghost state, which any thread may hold.
unsafe impl Send for Seal {}

impl Seal {
    /// The seal of a region: it keeps the key alone, and borrows nothing.
    pub fn of(region: &Region) -> Seal
        ensures { result.key ≡ region.now.key }
    {
        // Only the proof uses the region, for its key.
        let _ = region;
        Seal {}
    }
}
