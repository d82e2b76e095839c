//! What a memory means: the facts by which it is known, the calls that every memory has, and the laws that tie each
//! call to the facts.
#![tactic(auto)]

pub mod bad_line;
pub mod limits;
pub mod memory;
pub mod refusal;
pub mod replies;
pub mod state;
pub mod tickets;
