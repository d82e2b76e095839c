//! What became of calls, as lines of text.
use port::answer::Redeemed;
use port::event::Event;
use port::refusal::{Refusal, Unredeemed};
use std::fmt;

/// An event as its line.
#[derive(Clone, Copy)]
pub struct Printed(pub Event);

// What is written here is in no contract: the lines of a run are compared with those that are wanted.

// Writes the number that a request got, or why it was refused.
fn write_number<W: fmt::Write>(
    f: &mut fmt::Formatter<W>,
    outcome: Result<u32, Refusal>,
) -> fmt::Result {
    match outcome {
        Ok(number) => write!(f, "number {number}"),
        Err(refusal) => write!(f, "refused {}", u8::from(refusal)),
    }
}

// Writes what a number was redeemed for, or why it was not.
fn write_redeemed<W: fmt::Write>(
    f: &mut fmt::Formatter<W>,
    outcome: Result<Redeemed, Unredeemed>,
) -> fmt::Result {
    match outcome {
        Ok(Redeemed::Value(value)) => write!(f, "value {value}"),
        Ok(Redeemed::Done) => write!(f, "done"),
        Ok(Redeemed::Fault(fault)) => write!(
            f,
            "fault {} {} {}",
            fault.level, fault.line, fault.cause
        ),
        Err(unredeemed) => write!(f, "refused {}", u8::from(unredeemed)),
    }
}

impl fmt::Display for Printed {
    fn fmt<W: fmt::Write>(&self, f: &mut fmt::Formatter<W>) -> fmt::Result {
        match self.0 {
            Event::Load {
                size,
                address,
                outcome,
            } => {
                write!(f, "load {size} {address} -> ")?;
                write_number(f, outcome)
            }
            Event::Store {
                size,
                address,
                value,
                outcome,
            } => {
                write!(f, "store {size} {address} {value} -> ")?;
                write_number(f, outcome)
            }
            Event::Step {
                outcome: Some(number),
            } => write!(f, "step -> came {number}"),
            Event::Step { outcome: None } => write!(f, "step -> nothing"),
            Event::Redeem { number, outcome } => {
                write!(f, "redeem {number} -> ")?;
                write_redeemed(f, outcome)
            }
            Event::Come {
                outcome: Some(number),
            } => write!(f, "come -> {number}"),
            Event::Come { outcome: None } => write!(f, "come -> nothing"),
            Event::Size { outcome } => write!(f, "size -> {outcome}"),
            Event::RationLeft { outcome } => write!(f, "ration left -> {outcome}"),
            Event::OutCount { outcome } => write!(f, "out -> {outcome}"),
        }
    }
}
