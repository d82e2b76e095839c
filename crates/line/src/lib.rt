//! Lines of 16 bytes: new bytes laid on a line under a mask, and values that lie in a line.
#![tactic(auto)]

pub mod counts;
pub mod laying;
pub mod span;
pub mod values;

/// How many bytes a line has.
pub const LINE_SIZE: usize = 16;
