//! Runs of a port on one level over any memory, and on hierarchies that are made from an image.
#![tactic(auto)]

pub mod on_level;
pub mod on_ordered;
pub mod on_scripted;
