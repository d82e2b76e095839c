//! Entries that have a key, how one is found and taken out, and what is asked of slices.
#![tactic(auto)]

pub mod keyed;
pub mod slices;
