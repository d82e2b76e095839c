//! What a cache level holds, how each part of its calls changes it, and why a level over any memory is a memory.
#![tactic(auto)]

pub mod registers;
pub mod standing;
pub mod tables;
pub mod ways;
