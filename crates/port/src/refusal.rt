//! The refusals of a port, with their numbers.
ghost use Rattle.std.specs.Prelude.{◌≡◌};
ghost use Rattle.port.specs.Refusals.{refusal_code, unredeemed_code};

use crate::request::Unlawful;

/// Why a port does not accept a request.
#[derive(Clone, Copy, PartialEq, Eq, Debug)]
pub enum Refusal {
    /// It is not lawful.
    Unlawful(Unlawful),
    /// As many requests were accepted as the ration allows.
    RationUsed,
    /// As many numbers are out as can be.
    TooManyOut,
    /// The hierarchy takes no more requests for now.
    Busy,
}

/// The number of the refusal.
impl From<Refusal> for u8 {
    ghost from_gives = { λ refusal code. code ≡ refusal_code refusal };

    fn from(refusal: Refusal) -> u8 {
        match refusal {
            Refusal::Unlawful(why) => u8::from(why),
            Refusal::TooManyOut => 21,
            Refusal::RationUsed => 22,
            Refusal::Busy => 23,
        }
    }
}

/// Why a number is not redeemed.
#[derive(Clone, Copy, PartialEq, Eq, Debug)]
pub enum Unredeemed {
    /// The number is not out: it was never given, or was redeemed before.
    NotOut,
    /// The answer to its request has not come.
    NotCome,
}

/// The number of the refusal.
impl From<Unredeemed> for u8 {
    ghost from_gives = { λ unredeemed code. code ≡ unredeemed_code unredeemed };

    fn from(unredeemed: Unredeemed) -> u8 {
        match unredeemed {
            Unredeemed::NotOut => 24,
            Unredeemed::NotCome => 25,
        }
    }
}
