//! Two levels on the memory that answers in order.
ghost use Rattle.std.specs.Prelude.{◌≡◌};
ghost use Rattle.backing.specs.Clock.{counted_latency};
ghost use Rattle.backing.specs.Image.{lent_bytes};
ghost use Rattle.bottom.specs.Ordered.{ordered_image, OrderedBegins};
ghost use Rattle.hierarchy.specs.Begins.{NewLevel, OnImage};
ghost use Rattle.hierarchy.specs.Pace.{two_levels_pace};
ghost use Rattle.level.specs.Level.{level_below};
ghost use Rattle.memory.specs.Gather.{facts};
ghost use Rattle.memory.specs.Meaning.{Idle, Well};

use bottom::ordered::Ordered;
use level::level::Level;
use memory::bad_line::BadLine;
use memory::state::State;
use replacement::fifo::Fifo;
use replacement::geometry::Geometry;
use replacement::lru::Lru;

/// A level with FIFO, over one with LRU, over the memory that answers in order.
pub type TwoLevelsOnOrdered<'a> = Level<Level<Ordered<'a>, Lru>, Fifo>;

/// Two levels that hold nothing, with these geometries, on a new memory on the image. The memory at the bottom has level
/// number 0; of the bad lines and the latency counts what counts of them there.
pub fn on_ordered<'a>(
    image: &'a mut [u8],
    bad_lines: &[BadLine],
    latency: u8,
    lower: Geometry,
    upper: Geometry,
) -> TwoLevelsOnOrdered<'a>
    ensures well { Well (facts ⟦<TwoLevelsOnOrdered<'a> as State>⟧ result) }
    ensures idle { Idle (facts ⟦<TwoLevelsOnOrdered<'a> as State>⟧ result) }
    ensures image { OnImage image.entry.now 0 bad_lines.now (facts ⟦<TwoLevelsOnOrdered<'a> as State>⟧ result) }
    ensures pace { (facts ⟦<TwoLevelsOnOrdered<'a> as State>⟧ result).pace ≡ two_levels_pace (counted_latency latency) }
    ensures upper { NewLevel upper result }
    ensures lower { NewLevel lower (level_below result) }
    ensures bottom { OrderedBegins 0 bad_lines.now latency (level_below (level_below result)) }
    ensures lent { lent_bytes (ordered_image (level_below (level_below result))) ≡ image.entry }
{
    let memory = Ordered::new(image, 0, bad_lines, latency);
    let level = Level::new(memory, Lru::new(lower));
    Level::new(level, Fifo::new(upper))
}
