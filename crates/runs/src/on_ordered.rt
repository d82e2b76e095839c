//! Runs on one level, on the memory that answers in order.
ghost use Rattle.backing.specs.Clock.{counted_latency};
ghost use Rattle.runs.specs.Exact.{RanOnOrdered};
ghost use Rattle.runs.specs.Kept.{KeptOnImage};
ghost use Rattle.hierarchy.specs.Pace.{one_level_pace};

use bottom::ordered::Ordered;
use level::level::Level;
use memory::bad_line::BadLine;
use memory::state::State;
use port::run::{Entry, run};
use replacement::geometry::Geometry;
use replacement::lru::Lru;

/// A level with LRU over the memory that answers in order.
pub type OneLevelOnOrdered<'a> = Level<Ordered<'a>, Lru>;

/// Makes these calls on a port with this ration that is opened on one level with LRU and this geometry, which holds nothing, on a
/// new memory on the image that answers in order. Writes beside each call what became of it, and gives the image back: it has no bytes
/// that were stored and not yet written down. The memory has level number 0; the first 32 bad lines count, and a latency outside 1
/// to 64 is replaced by the nearer of these.
pub fn run_on_ordered<'a>(
    image: &'a mut [u8],
    bad_lines: &[BadLine],
    latency: u8,
    geometry: Geometry,
    ration: u32,
    entries: &mut [Entry],
) -> &'a mut [u8]
    ensures promise { KeptOnImage image.entry.now bad_lines.now (one_level_pace (counted_latency latency)) ration entries.old entries.new }
    ensures exact { RanOnOrdered ⟦<OneLevelOnOrdered<'a> as State>⟧ image.entry bad_lines.now latency geometry ration entries.old entries.new result }
{
    let memory = Ordered::new(image, 0, bad_lines, latency);
    let level = Level::new(memory, Lru::new(geometry));
    run(level, ration, entries).into_below().into_image()
}
