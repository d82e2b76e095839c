//! Players: each carries out one trace, call by call, over a hierarchy that the trace's setup names.
#![tactic(auto)]

mod faulty;
mod image;
pub mod limits;
pub mod listing;
pub mod player;
mod progress;
mod session;
mod setup;
