//! Numbers to which several crates keep.

/// The blocks of a graph. A play has at most so many headers.
pub const BLOCKS: u32 = 1024;

/// The bytes of a block, and the most bytes of a header.
pub const BLOCK_BYTES: u32 = 4096;

/// The factor of one, for a gain and for weights: they count in 4096ths.
pub const ONE: u32 = 4096;
