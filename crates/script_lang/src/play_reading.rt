//! What is read of a play so far: its units, its components, and its links.

ghost use Rattle.std.specs.Prelude.{◌≤◌, length};

use crate::{LinkLine, PartLine};

/// What the earlier lines of a play said.
#[derive(Drop)]
pub struct PlayReading {
    pub units: Option<u32>,
    pub parts: Vec<PartLine>,
    pub links: Vec<LinkLine>,
    ghost few: { length parts.items ≤ 32 },
}
