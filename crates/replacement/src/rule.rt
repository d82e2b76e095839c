//! What a replacement rule means.
ghost use Rattle.std.specs.Prelude.{◌≡◌, ℕ, ◌<◌, List};
ghost use Rattle.replacement.specs.Orders.{EachOnce, picked, Chosen, told, AbsentKept};

use crate::geometry::Geometry;

/// A replacement rule: a geometry that never changes, and for each set an order of its ways, in which the first is the
/// first to be replaced.
pub trait Replacement {
    ghost use Rattle.replacement.specs.declared.geometry.Geometry.{Geometry};

    // How many sets there are, and how many ways each has.
    ghost geometry: { Self → Geometry };

    // The order of the ways of each set.
    ghost order: { Self → ℕ → List ℕ };

    // The new order of a set of which a way was used, and of one of which a way was filled: each kind of rule has its
    // own.
    ghost uses: { Self → ℕ → ℕ → List ℕ };

    ghost fills: { Self → ℕ → ℕ → List ℕ };

    // Which of several kinds it is, where the type has more than one; told of a way, it stays of that kind.
    ghost kind: { Self → ℕ } = { λ _. 0 };

    /// How many sets and ways there are.
    fn geometry(&self) -> Geometry
        ensures { result ≡ geometry self.now };

    /// The first way in the set's order that is offered, where bit w of the mask offers way w. No way is answered
    /// exactly where no way of the set is offered, or there is no such set.
    fn pick(&self, set: usize, offered: u8) -> Option<usize>
        ensures value { result ≡ picked (geometry self.now).sets (order self.now) set offered }
        ensures cases { Chosen (geometry self.now) set offered result };

    /// Tells of a hit on a way. Nothing changes where there is no such set or way.
    fn used(&mut self, set: usize, way: usize)
        ensures geometry { geometry self.new ≡ geometry self.old }
        ensures order { (k : ℕ) → order self.new k ≡ told (geometry self.old) (order self.old) set way (uses self.old set way) k }
        ensures absent { AbsentKept (geometry self.old) set way self.old self.new }
        ensures kind { kind self.new ≡ kind self.old };

    /// Tells that a way was filled. Nothing changes where there is no such set or way.
    fn filled(&mut self, set: usize, way: usize)
        ensures geometry { geometry self.new ≡ geometry self.old }
        ensures order { (k : ℕ) → order self.new k ≡ told (geometry self.old) (order self.old) set way (fills self.old set way) k }
        ensures absent { AbsentKept (geometry self.old) set way self.old self.new }
        ensures kind { kind self.new ≡ kind self.old };

    // Each way of a set stands in its order exactly once.
    ghost once: { (s : Self) (set : ℕ) → set < (geometry s).sets → EachOnce (geometry s).ways (order s set) };
}
