//! A region: blocks of equal size that are cut, without a copy, from one allocation.
//!
//! Only `Region::new` takes memory. `take` and `give` move a block out of the region and back in constant time, and a block that is
//! out is its holder's alone. A block can't be let go but by `give`, and a region can't be let go and must be closed.
//!
//! The region owns, as a formula, the bytes of exactly the blocks that are at home: `take` parts a block's bytes from them, `give` joins
//! them again, and `close` has them whole only where each block is home.
#![tactic(auto)]

mod block;
mod memory;
mod region;
mod roster;
mod seal;
mod threads;

pub use block::Block;
pub use region::{OutOfMemory, Region};
pub use seal::Seal;
