//! Traces: their records, how a record is read and written, and the reader and the writer of a whole trace.
#![tactic(auto)]

pub mod copying;
pub mod decoding;
mod encoding;
mod encoding_setup;
mod fields;
pub mod in_limits;
pub mod limits;
pub mod numbers;
pub mod reader;
pub mod records;
pub mod refusal;
pub mod writer;
