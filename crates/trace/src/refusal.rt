//! The refusals of reader and writer, with their numbers.
ghost use Rattle.std.specs.Prelude.{◌≡◌};
ghost use Rattle.trace.specs.Refusal.{refusal_code};

/// Why a record is not read or not written.
#[derive(Clone, Copy, PartialEq, Eq, Debug)]
pub enum Refusal {
    /// The bytes end inside the record, or the trace is empty.
    Truncated,
    /// A number is not in its shortest form, or is above the highest number.
    Number,
    /// No kind has the number of the kind byte.
    NoKind,
    /// A field is outside its limits.
    Limit,
    /// The first record is no setup, or a later one is.
    Misplaced,
    /// The record does not fit into what is left of the buffer.
    Room,
}

/// The number of the refusal.
impl From<Refusal> for u8 {
    ghost from_gives = { λ refusal n. n ≡ refusal_code refusal };

    fn from(refusal: Refusal) -> u8 {
        match refusal {
            Refusal::Truncated => 1,
            Refusal::Number => 2,
            Refusal::NoKind => 3,
            Refusal::Limit => 4,
            Refusal::Misplaced => 5,
            Refusal::Room => 12,
        }
    }
}

/// Why a record is refused, and the offset in the trace where it begins.
#[derive(Clone, Copy)]
pub struct Refused {
    pub refusal: Refusal,
    pub offset: usize,
}
