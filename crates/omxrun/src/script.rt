//! The limit on the length of a script.

/// The longest script, in bytes.
pub const SCRIPT_BYTES: u64 = 65_536;
