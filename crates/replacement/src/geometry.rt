//! How many sets a cache has, and how many ways each set has.
ghost use Rattle.line.specs.Counts.{is_count};
ghost use Rattle.std.specs.Prelude.{◌≡◌, ◌%◌, true};

use crate::refusal::Refusal;
use line::counts::is_count;

/// The most sets of a geometry.
pub const MOST_SETS: usize = 8;

/// The most ways of a set.
pub const MOST_WAYS: usize = 8;

/// How many sets a cache has, and how many ways each set has: each 1, 2, 4 or 8, and no other number.
#[derive(Clone, Copy)]
pub struct Geometry {
    pub sets: usize,
    pub ways: usize,
    ghost sets_count: { is_count sets ≡ true },
    ghost ways_count: { is_count ways ≡ true },
}

impl Geometry {
    ghost use Rattle.replacement.specs.Shapes.{shape, geometry_answer};

    /// The geometry of so many sets of so many ways, or a refusal where one of them is not 1, 2, 4 or 8.
    pub fn new(sets: usize, ways: usize) -> Result<Geometry, Refusal>
        ensures { shape result ≡ geometry_answer sets ways }
    {
        if !is_count(sets as u64) || !is_count(ways as u64) {
            return Err(Refusal::Counts);
        }
        Ok(Geometry { sets, ways })
    }

    /// The set that a line belongs to.
    pub fn set_of(self, line: u32) -> usize
        ensures { result ≡ line % self.sets }
    {
        line as usize % self.sets
    }
}
