//! A cache level over any memory, with any replacement rule.
ghost use Rattle.std.specs.Prelude.{◌≡◌};
ghost use Rattle.memory.specs.Gather.{facts};
ghost use Rattle.level_model.specs.Kept.{Kept};
ghost use Rattle.level_model.specs.Props.{Kept-prop};

use crate::parts::Parts;
use level_model::registers::Ask;
use level_model::standing::Standing;
use level_model::tables::Tables;
use memory::memory::Memory;
use memory::refusal::Refusal;
use memory::replies::Answer;
use memory::state::State;
use replacement::rule::Replacement;

/// A write-back cache level over a memory. It takes a request while there is room for it, and answers each in a later step; a
/// line that it does not hold is read from the memory below, and one that was written is written there after another line
/// took its way.
#[derive(Drop)]
pub struct Level<M: Memory + Drop, R: Replacement + Drop> {
    parts: Parts<M, R>,
    ghost kept: { Kept (facts M.State parts.below) (R.geometry parts.rule) parts.tables } by { Kept-prop (facts M.State parts.below) (R.geometry parts.rule) parts.tables },
}

impl<M: Memory + Drop, R: Replacement + Drop> Level<M, R> {
    ghost use Rattle.level.specs.Level.{level_below, level_rule, level_tables, level_standing};
    ghost use Rattle.level_model.specs.Facts.{Covers};
    ghost use Rattle.level_model.specs.Tables.{empty_tables};
    ghost use Rattle.memory.specs.Meaning.{Idle};

    /// A level that holds nothing, on this memory. The rule says how many sets and ways it has. Answers to what is open on the
    /// memory are dropped.
    pub fn new(below: M, rule: R) -> Level<M, R>
        ensures below { level_below result ≡ below }
        ensures rule { level_rule result ≡ rule }
        ensures tables { level_tables result ≡ empty_tables }
        ensures covers { Covers (facts M.State below) (facts ⟦<Level<M, R> as State>⟧ result) }
        ensures idle { Idle (facts M.State below) → Idle (facts ⟦<Level<M, R> as State>⟧ result) }
    {
        Level {
            parts: Parts {
                below,
                rule,
                tables: Tables::new(),
            },
        }
    }

    /// The memory below, given back. Lines that were written here and not yet there are lost.
    pub fn into_below(self) -> M
        ensures { result ≡ level_below self }
    {
        self.parts.below
    }

    /// Where a line stands. A line that is not below the size stands nowhere.
    pub fn standing(&self, line: u32) -> Standing
        ensures { result ≡ level_standing self.now line }
    {
        self.parts.standing(line)
    }
}

impl<M: Memory + Drop, R: Replacement + Drop> State for Level<M, R> {
    ghost use Rattle.level.specs.Level.{level_known};

    ghost lines = { λ s. (level_known s).lines };

    ghost contents = { λ s. (level_known s).contents };

    ghost bad = { λ s. (level_known s).bad };

    ghost due = { λ s. (level_known s).due };

    ghost owed = { λ s. (level_known s).owed };

    ghost pace = { λ s. (level_known s).pace };
}

impl<M: Memory + Drop, R: Replacement + Drop> Memory for Level<M, R> {
    ghost use Rattle.level.specs.Laws.{level_laws};
    ghost use Rattle.level.specs.Level.{LevelReads, LevelWrites, LevelSteps};

    ghost reads = { LevelReads };

    ghost writes = { LevelWrites };

    ghost steps = { LevelSteps };

    fn size(&self) -> u32 {
        self.parts.below.size()
    }

    fn read(&mut self, line: u32) -> Result<u32, Refusal> {
        self.parts.ask(line, Ask::Read)
    }

    fn write(&mut self, line: u32, mask: u16, new: [u8; 16]) -> Result<u32, Refusal> {
        self.parts.ask(line, Ask::Write(mask, new))
    }

    fn step(&mut self, buffer: &mut [u8; 16]) -> Option<Answer> {
        self.parts.step(buffer)
    }

    ghost well = { (level_laws R.once (record { well = M.well; reading = M.reading; writing = M.writing; stepping = M.stepping })).well };

    ghost reading = { (level_laws R.once (record { well = M.well; reading = M.reading; writing = M.writing; stepping = M.stepping })).reading };

    ghost writing = { (level_laws R.once (record { well = M.well; reading = M.reading; writing = M.writing; stepping = M.stepping })).writing };

    ghost stepping = { (level_laws R.once (record { well = M.well; reading = M.reading; writing = M.writing; stepping = M.stepping })).stepping };
}
