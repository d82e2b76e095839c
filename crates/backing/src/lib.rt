//! What the memories at the bottom are made of: an image of bytes and the requests that are open on it, which say what
//! is due to each request; and a clock and a script, which say when one is answered, and which.
#![tactic(auto)]

pub mod backing;
pub mod clock;
pub mod image;
pub mod requests;
pub mod script;
