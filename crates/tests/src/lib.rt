//! What rests on several crates: functions proved for every memory and every replacement rule, and tests on examples.
#![tactic(auto)]

#[cfg(test)]
mod answers;
#[cfg(test)]
mod bottom_memories;
#[cfg(test)]
mod copies;
pub mod fetching;
#[cfg(test)]
mod plays;
pub mod victims;
pub mod waiting;
