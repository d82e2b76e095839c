//! Hierarchies: two levels on each of the two memories at the bottom, and whatever a caller chooses when the program runs. Nothing is
//! left to be supposed of what stands below a level.
#![tactic(auto)]

pub mod any_bottom;
pub mod any_rule;
pub mod hierarchy;
pub mod ordered;
pub mod scripted;
