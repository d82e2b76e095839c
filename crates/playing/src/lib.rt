//! Whole plays: a trace goes in, and its listing comes out.
#![tactic(auto)]

pub mod input;
pub mod playing;
