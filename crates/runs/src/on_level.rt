//! Runs on one level, over any memory and with any rule.
ghost use Rattle.memory.specs.Gather.{facts};
ghost use Rattle.memory.specs.Meaning.{Idle};
ghost use Rattle.runs.specs.Exact.{RanOnLevel};
ghost use Rattle.runs.specs.Kept.{KeptOnLevel};

use level::level::Level;
use memory::memory::Memory;
use memory::state::State;
use port::run::{Entry, run};
use replacement::rule::Replacement;

/// Makes these calls on a port with this ration that is opened on one level, which holds nothing, with this rule over this memory.
/// Writes beside each call what became of it, and gives the memory back: it has no bytes that were stored and not yet written down.
pub fn run_on_level<M: Memory + Drop, R: Replacement + Drop>(
    memory: M,
    rule: R,
    ration: u32,
    entries: &mut [Entry],
) -> M
    ensures promise { Idle (facts M.State memory) → KeptOnLevel (facts M.State memory) ration entries.old entries.new }
    ensures exact { RanOnLevel ⟦<Level<M, R> as State>⟧ memory rule ration entries.old entries.new result }
{
    run(Level::new(memory, rule), ration, entries).into_below()
}
