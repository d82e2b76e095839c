//! What is asked under a number, and what the number is redeemed for.
ghost use Rattle.std.specs.Prelude.{◌≡◌};
ghost use Rattle.port.specs.Answers.{answer_to};

use line::span::Span;
use memory::replies::{Fault, Status};

/// What an accepted request asked, as far as its answer depends on it.
#[derive(Clone, Copy, Default)]
pub(crate) enum Asked {
    /// The value of these bytes of its line.
    Load(Span),
    /// To store a value.
    #[default]
    Store,
}

/// What a number is redeemed for.
#[derive(Clone, Copy, PartialEq, Eq, Debug)]
pub enum Redeemed {
    /// The value of a load.
    Value(u64),
    /// A store is done.
    Done,
    /// The line is bad.
    Fault(Fault),
}

impl Asked {
    // What is redeemed where the hierarchy answered with this status, and with this line if that was read. A load is never answered
    // "done", and a store never with a line.
    pub(crate) fn answer_to(self, status: Status, line: [u8; 16]) -> Redeemed
        ensures { result ≡ answer_to self status line }
    {
        match (self, status) {
            (_, Status::Fault(fault)) => Redeemed::Fault(fault),
            (Asked::Load(span), Status::Line) => Redeemed::Value(span.value(line)),
            (Asked::Load(_), Status::Done) | (Asked::Store, Status::Line | Status::Done) => {
                Redeemed::Done
            }
        }
    }
}
