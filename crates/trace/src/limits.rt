//! The limits of what a trace may say. Those of memories are in `memory::limits`.

/// The most cache levels.
pub const MOST_LEVELS: u8 = 2;

/// The highest line that may be called bad. A memory may have fewer lines.
pub const HIGHEST_BAD_LINE: u32 = 4095;

/// The highest cause of a bad line.
pub const HIGHEST_CAUSE: u8 = 255;

/// The largest size that a request may name, in bytes.
pub const LARGEST_SIZE: u8 = 255;

/// The highest address that a request may name.
pub const HIGHEST_ADDRESS: u32 = 0xffff_ffff;

/// The highest value of a store, and the highest number that a field may hold.
pub const HIGHEST_NUMBER: u64 = 0xffff_ffff_ffff_ffff;

/// The most steps of a pass.
pub const MOST_STEPS: u16 = 1000;

/// The longest note, in bytes.
pub const LONGEST_NOTE: usize = 60;

/// The first byte that a note may hold.
pub const FIRST_PRINTABLE: u8 = 32;

/// The last byte that a note may hold.
pub const LAST_PRINTABLE: u8 = 126;

/// How many bytes a record within its limits takes at most. A setup takes the most.
pub const LONGEST_RECORD: usize = 205;
