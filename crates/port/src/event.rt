//! The calls of a port, and what became of them.
use crate::answer::Redeemed;
use crate::refusal::{Refusal, Unredeemed};

/// A call of a port. Sizes are in bytes; an address is that of the lowest byte. `Size` asks for the lines of the hierarchy, `RationLeft`
/// for the requests that can still be accepted, `OutCount` for the numbers that are out.
#[derive(Clone, Copy, PartialEq, Eq, Debug)]
pub enum Call {
    Load { size: u8, address: u32 },
    Store { size: u8, address: u32, value: u64 },
    Step,
    Redeem { number: u32 },
    Come,
    Size,
    RationLeft,
    OutCount,
}

/// A call of a port that was made, with its outcome: what the function of that name answered.
#[derive(Clone, Copy, PartialEq, Eq, Debug)]
pub enum Event {
    Load {
        size: u8,
        address: u32,
        outcome: Result<u32, Refusal>,
    },
    Store {
        size: u8,
        address: u32,
        value: u64,
        outcome: Result<u32, Refusal>,
    },
    Step {
        outcome: Option<u32>,
    },
    Redeem {
        number: u32,
        outcome: Result<Redeemed, Unredeemed>,
    },
    Come {
        outcome: Option<u32>,
    },
    Size {
        outcome: u32,
    },
    RationLeft {
        outcome: u32,
    },
    OutCount {
        outcome: usize,
    },
}
