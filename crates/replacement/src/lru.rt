//! The rule that replaces the way that was least recently used or filled.
ghost use Rattle.std.proofs.Common.{rules};
ghost use Rattle.std.specs.Prelude.{◌≡◌, ℕ, ◌<◌};
ghost use Rattle.replacement.specs.Orders.{first_order};

use crate::geometry::Geometry;
use crate::orders::Orders;
use crate::rule::Replacement;

/// Least recently used: a way that is used or filled goes to the end of its set's order.
#[derive(Clone, Copy)]
pub struct Lru {
    orders: Orders,
}

impl Lru {
    ghost use Rattle.replacement.specs.Lru.{lru_geometry, lru_order};

    /// The rule at its beginning: each set has its ways from the lowest up.
    pub fn new(geometry: Geometry) -> Lru
        ensures geometry { lru_geometry result ≡ geometry }
        ensures order { (set : ℕ) → set < geometry.sets → lru_order result set ≡ first_order geometry.ways }
    {
        Lru {
            orders: Orders::new(geometry),
        }
    }
}

impl Replacement for Lru {
    ghost use Rattle.replacement.specs.Lru.{lru_geometry, lru_order, lru_used, lru_filled};

    ghost geometry = { lru_geometry };

    ghost order = { lru_order };

    ghost uses = { λ s set way. lru_used way (lru_order s set) };

    ghost fills = { λ s set way. lru_filled way (lru_order s set) };

    ghost once = { Prim.search rules };

    fn geometry(&self) -> Geometry {
        self.orders.geometry
    }

    fn pick(&self, set: usize, offered: u8) -> Option<usize> {
        self.orders.pick(set, offered)
    }

    fn used(&mut self, set: usize, way: usize) {
        self.orders.move_to_end(set, way);
    }

    fn filled(&mut self, set: usize, way: usize) {
        self.orders.move_to_end(set, way);
    }
}
