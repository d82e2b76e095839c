//! Two levels on the memory that answers as a script says.
ghost use Rattle.std.specs.Prelude.{◌≡◌, length};
ghost use Rattle.backing.specs.Script.{counted_script};
ghost use Rattle.backing.specs.Image.{lent_bytes};
ghost use Rattle.bottom.specs.Scripted.{scripted_image, ScriptedBegins};
ghost use Rattle.hierarchy.specs.Begins.{NewLevel, OnImage};
ghost use Rattle.hierarchy.specs.Pace.{two_levels_pace};
ghost use Rattle.level.specs.Level.{level_below};
ghost use Rattle.memory.specs.Gather.{facts};
ghost use Rattle.memory.specs.Meaning.{Idle, Well};

use bottom::scripted::Scripted;
use level::level::Level;
use memory::bad_line::BadLine;
use memory::state::State;
use replacement::fifo::Fifo;
use replacement::geometry::Geometry;
use replacement::lru::Lru;

/// A level with FIFO, over one with LRU, over the memory that answers as a script says.
pub type TwoLevelsOnScripted<'a> = Level<Level<Scripted<'a>, Lru>, Fifo>;

/// Two levels that hold nothing, with these geometries, on a new memory on the image. The memory at the bottom has level
/// number 0; of the bad lines and the script counts what counts of them there.
pub fn on_scripted<'a>(
    image: &'a mut [u8],
    bad_lines: &[BadLine],
    script: &[u8],
    lower: Geometry,
    upper: Geometry,
) -> TwoLevelsOnScripted<'a>
    ensures well { Well (facts ⟦<TwoLevelsOnScripted<'a> as State>⟧ result) }
    ensures idle { Idle (facts ⟦<TwoLevelsOnScripted<'a> as State>⟧ result) }
    ensures image { OnImage image.entry.now 0 bad_lines.now (facts ⟦<TwoLevelsOnScripted<'a> as State>⟧ result) }
    ensures pace { (facts ⟦<TwoLevelsOnScripted<'a> as State>⟧ result).pace ≡ two_levels_pace (length (counted_script script.now)) }
    ensures upper { NewLevel upper result }
    ensures lower { NewLevel lower (level_below result) }
    ensures bottom { ScriptedBegins 0 bad_lines.now script.now (level_below (level_below result)) }
    ensures lent { lent_bytes (scripted_image (level_below (level_below result))) ≡ image.entry }
{
    let memory = Scripted::new(image, 0, bad_lines, script);
    let level = Level::new(memory, Lru::new(lower));
    Level::new(level, Fifo::new(upper))
}
