//! The refusals of a memory, with their numbers.
ghost use Rattle.std.specs.Prelude.{◌≡◌};
ghost use Rattle.memory.specs.Replies.{refusal_code};

/// Why a memory does not take a request.
#[derive(Clone, Copy, PartialEq, Eq, Debug)]
pub enum Refusal {
    /// The memory has no such line.
    NoLine,
    /// The memory takes no more requests for now.
    Busy,
}

/// The number of the refusal.
impl From<Refusal> for u8 {
    ghost from_gives = { λ refusal n. n ≡ refusal_code refusal };

    fn from(refusal: Refusal) -> u8 {
        match refusal {
            Refusal::NoLine => 11,
            Refusal::Busy => 23,
        }
    }
}
