//! The key that all headers of one graph share.

ghost use Rattle.std.specs.Prelude.{◌≡◌};
ghost use Rattle.header_core.specs.Keys.{key_number};

use block_region::{Region, Seal};
use std::marker::Model;

/// What the headers of one graph have in common: it is that of the region of the graph's blocks. So no caller can show that a header
/// of one graph has the key of another one. At run time it is nothing.
#[derive(Drop)]
pub struct Key {
    seal: Seal,
}

impl Model for Key {
    ghost use Rattle.std.specs.Prelude.{ℕ};
    ghost use Rattle.header_core.specs.Keys.{key_number};

    ghost Value = { ℕ };

    ghost view = { λ key. key_number key.seal.key };
}

impl Key {
    /// The key of the headers whose blocks are of the region.
    pub fn of(region: &Region) -> Key
        ensures { result ≡ key_number region.now.key }
    {
        Key {
            seal: Seal::of(region),
        }
    }
}
