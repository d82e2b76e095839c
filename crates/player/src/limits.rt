//! The room that a player needs.

/// The room that a call needs for its line, in bytes. No line is longer.
pub const LINE_ROOM: usize = 128;

/// The room that a player needs for its memory, in bytes: the most that a setup can ask for.
pub const IMAGE_ROOM: usize = 65_536;
