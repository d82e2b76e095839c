//! Runs on two levels, on the memory that answers as a script says.
ghost use Rattle.std.specs.Prelude.{length};
ghost use Rattle.backing.specs.Script.{counted_script};
ghost use Rattle.hierarchy.specs.Pace.{two_levels_pace};
ghost use Rattle.runs.specs.Exact.{RanOnScripted};
ghost use Rattle.runs.specs.Kept.{KeptOnImage};

use hierarchy::scripted::{TwoLevelsOnScripted, on_scripted};
use memory::bad_line::BadLine;
use memory::state::State;
use port::run::{Entry, run};
use replacement::geometry::Geometry;

/// Makes these calls on a port with this ration that is opened on two levels with these geometries, FIFO above LRU, which hold
/// nothing, on a new memory on the image that answers as the script says. Writes beside each call what became of it, and gives the image
/// back: it has no bytes that were stored and not yet written down. The memory has level number 0; the first 32 bad lines and the first
/// 64 bytes of the script count.
pub fn run_on_scripted<'a>(
    image: &'a mut [u8],
    bad_lines: &[BadLine],
    script: &[u8],
    lower: Geometry,
    upper: Geometry,
    ration: u32,
    entries: &mut [Entry],
) -> &'a mut [u8]
    ensures promise { KeptOnImage image.entry.now bad_lines.now (two_levels_pace (length (counted_script script.now))) ration entries.old entries.new }
    ensures exact { RanOnScripted ⟦<TwoLevelsOnScripted<'a> as State>⟧ image.entry bad_lines.now script.now lower upper ration entries.old entries.new result }
{
    let levels = on_scripted(image, bad_lines, script, lower, upper);
    run(levels, ration, entries)
        .into_below()
        .into_below()
        .into_image()
}
