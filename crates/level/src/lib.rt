//! A cache level over any memory, with any replacement rule, is a memory.
#![tactic(auto)]

pub mod level;
mod parts;
