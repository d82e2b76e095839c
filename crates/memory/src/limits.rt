//! The limits of memories. A setup of a trace keeps them too.

/// The most lines that a memory has.
pub const MOST_LINES: u32 = 4096;

/// The most bad lines that a memory is given.
pub const MOST_BAD_LINES: usize = 32;

/// The longest latency, in steps.
pub const LONGEST_LATENCY: u8 = 64;

/// The longest script, in bytes.
pub const LONGEST_SCRIPT: usize = 64;
