//! The refusal of a geometry, with its number.
ghost use Rattle.std.specs.Prelude.{◌≡◌};

/// Why no geometry is made.
#[derive(Clone, Copy, PartialEq, Eq, Debug)]
pub enum Refusal {
    /// Sets or ways are not 1, 2, 4 or 8.
    Counts,
}

/// The number of the refusal.
impl From<Refusal> for u8 {
    ghost use Rattle.replacement.specs.Shapes.{refusal_code};

    ghost from_gives = { λ r n. n ≡ refusal_code r };

    fn from(refusal: Refusal) -> u8 {
        match refusal {
            Refusal::Counts => 10,
        }
    }
}
