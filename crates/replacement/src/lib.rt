//! Sets and ways of a cache, and the rules that say which way of a set is replaced next.
#![tactic(auto)]

pub mod fifo;
pub mod geometry;
pub mod lru;
mod orders;
pub mod refusal;
pub mod rule;
