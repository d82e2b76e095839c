//! A replacement rule that is chosen when the program runs.
ghost use Rattle.std.specs.Prelude.{◌≡◌};

use replacement::fifo::Fifo;
use replacement::geometry::Geometry;
use replacement::lru::Lru;
use replacement::rule::Replacement;

/// LRU or FIFO.
#[derive(Clone, Copy)]
pub enum AnyRule {
    Lru(Lru),
    Fifo(Fifo),
}

/// It is the rule that was chosen.
impl Replacement for AnyRule {
    ghost use Rattle.hierarchy.specs.AnyRule.{any_geometry, any_order, any_uses, any_fills, any_kind, any_once};

    ghost geometry = { any_geometry };

    ghost order = { any_order };

    ghost uses = { any_uses };

    ghost fills = { any_fills };

    ghost kind = { any_kind };

    ghost once = { any_once };

    fn geometry(&self) -> Geometry {
        match self {
            AnyRule::Lru(rule) => rule.geometry(),
            AnyRule::Fifo(rule) => rule.geometry(),
        }
    }

    fn pick(&self, set: usize, offered: u8) -> Option<usize> {
        match self {
            AnyRule::Lru(rule) => rule.pick(set, offered),
            AnyRule::Fifo(rule) => rule.pick(set, offered),
        }
    }

    fn used(&mut self, set: usize, way: usize) {
        match self {
            AnyRule::Lru(rule) => rule.used(set, way),
            AnyRule::Fifo(rule) => rule.used(set, way),
        }
    }

    fn filled(&mut self, set: usize, way: usize) {
        match self {
            AnyRule::Lru(rule) => rule.filled(set, way),
            AnyRule::Fifo(rule) => rule.filled(set, way),
        }
    }
}
