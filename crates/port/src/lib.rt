//! A port for loads and stores over any memory. Accepted requests get numbers; the number of a load is redeemed for the value
//! that its bytes had in flat memory when it was accepted, that of a store for "done", and both for the fault of a bad line.
#![tactic(auto)]

pub mod answer;
pub mod event;
pub mod limits;
mod numbers;
pub mod port;
pub mod refusal;
pub mod request;
pub mod run;
