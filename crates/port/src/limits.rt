//! The limits of a port.

/// The most numbers that can be out at once.
pub const MOST_OUT: usize = 16;

/// The largest ration of requests.
pub const LARGEST_RATION: u32 = 1_000_000;
