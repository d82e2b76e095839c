//! The rule that replaces the way whose last fill is longest ago.
ghost use Rattle.std.proofs.Common.{rules};
ghost use Rattle.std.specs.Prelude.{◌≡◌, ℕ, ◌<◌};
ghost use Rattle.replacement.specs.Orders.{first_order};

use crate::geometry::Geometry;
use crate::orders::Orders;
use crate::rule::Replacement;

/// First in, first out: a way that is filled goes to the end of its set's order, and use changes nothing.
#[derive(Clone, Copy)]
pub struct Fifo {
    orders: Orders,
}

impl Fifo {
    ghost use Rattle.replacement.specs.Fifo.{fifo_geometry, fifo_order};

    /// The rule at its beginning: each set has its ways from the lowest up.
    pub fn new(geometry: Geometry) -> Fifo
        ensures geometry { fifo_geometry result ≡ geometry }
        ensures order { (set : ℕ) → set < geometry.sets → fifo_order result set ≡ first_order geometry.ways }
    {
        Fifo {
            orders: Orders::new(geometry),
        }
    }
}

impl Replacement for Fifo {
    ghost use Rattle.replacement.specs.Fifo.{fifo_geometry, fifo_order, fifo_used, fifo_filled};

    ghost geometry = { fifo_geometry };

    ghost order = { fifo_order };

    ghost uses = { λ s set way. fifo_used way (fifo_order s set) };

    ghost fills = { λ s set way. fifo_filled way (fifo_order s set) };

    ghost once = { Prim.search rules };

    fn geometry(&self) -> Geometry {
        self.orders.geometry
    }

    fn pick(&self, set: usize, offered: u8) -> Option<usize> {
        self.orders.pick(set, offered)
    }

    fn used(&mut self, _set: usize, _way: usize) {}

    fn filled(&mut self, set: usize, way: usize) {
        self.orders.move_to_end(set, way);
    }
}
