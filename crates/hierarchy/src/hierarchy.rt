//! One level or two on a memory at the bottom, chosen when the program runs.
ghost use Rattle.std.specs.Prelude.{◌≡◌};

use crate::any_bottom::AnyBottom;
use crate::any_rule::AnyRule;
use level::level::Level;
use memory::memory::Memory;
use memory::refusal::Refusal;
use memory::replies::Answer;
use memory::state::State;

/// A level on a memory at the bottom, or two.
#[derive(Drop)]
pub enum Hierarchy<'a> {
    OneLevel(Level<AnyBottom<'a>, AnyRule>),
    TwoLevels(Level<Level<AnyBottom<'a>, AnyRule>, AnyRule>),
}

impl<'a> Hierarchy<'a> {
    ghost use Rattle.hierarchy.specs.AnyBottom.{bottom_facts};
    ghost use Rattle.hierarchy.specs.Hierarchy.{hierarchy_bottom, hierarchy_facts, StandsOver, NewHierarchy};
    ghost use Rattle.memory.specs.Meaning.{Idle};

    /// Levels that hold nothing, with these rules, on this memory: the lowest alone, or another one above it. Answers to what is
    /// open on the memory are dropped.
    pub fn new(bottom: AnyBottom<'a>, lowest: AnyRule, upper: Option<AnyRule>) -> Hierarchy<'a>
        ensures new { NewHierarchy bottom.entry lowest upper result }
        ensures covers { StandsOver upper (bottom_facts bottom.entry) (hierarchy_facts result) }
        ensures idle { Idle (bottom_facts bottom.entry) → Idle (hierarchy_facts result) }
    {
        let level = Level::new(bottom, lowest);
        match upper {
            None => Hierarchy::OneLevel(level),
            Some(upper) => Hierarchy::TwoLevels(Level::new(level, upper)),
        }
    }

    /// The memory at the bottom, given back. Lines that were written in the levels and not yet there are lost.
    pub fn into_bottom(self) -> AnyBottom<'a>
        ensures { result ≡ hierarchy_bottom self.entry }
    {
        match self {
            Hierarchy::OneLevel(level) => level.into_below(),
            Hierarchy::TwoLevels(level) => level.into_below().into_below(),
        }
    }
}

impl<'a> State for Hierarchy<'a> {
    ghost use Rattle.hierarchy.specs.Hierarchy.{hierarchy_facts};

    ghost lines = { λ s. (hierarchy_facts s).lines };

    ghost contents = { λ s. (hierarchy_facts s).contents };

    ghost bad = { λ s. (hierarchy_facts s).bad };

    ghost due = { λ s. (hierarchy_facts s).due };

    ghost owed = { λ s. (hierarchy_facts s).owed };

    ghost pace = { λ s. (hierarchy_facts s).pace };
}

/// Its calls are those of the level on top.
impl<'a> Memory for Hierarchy<'a> {
    ghost use Rattle.hierarchy.specs.Hierarchy.{HierarchyReads, HierarchyWrites, HierarchySteps};
    ghost use Rattle.hierarchy.specs.HierarchyLaws.{hierarchy_laws};

    ghost reads = { HierarchyReads };

    ghost writes = { HierarchyWrites };

    ghost steps = { HierarchySteps };

    fn size(&self) -> u32 {
        match self {
            Hierarchy::OneLevel(level) => level.size(),
            Hierarchy::TwoLevels(level) => level.size(),
        }
    }

    fn read(&mut self, line: u32) -> Result<u32, Refusal> {
        match self {
            Hierarchy::OneLevel(level) => level.read(line),
            Hierarchy::TwoLevels(level) => level.read(line),
        }
    }

    fn write(&mut self, line: u32, mask: u16, new: [u8; 16]) -> Result<u32, Refusal> {
        match self {
            Hierarchy::OneLevel(level) => level.write(line, mask, new),
            Hierarchy::TwoLevels(level) => level.write(line, mask, new),
        }
    }

    fn step(&mut self, buffer: &mut [u8; 16]) -> Option<Answer> {
        match self {
            Hierarchy::OneLevel(level) => level.step(buffer),
            Hierarchy::TwoLevels(level) => level.step(buffer),
        }
    }

    ghost well = { hierarchy_laws.well };

    ghost reading = { hierarchy_laws.reading };

    ghost writing = { hierarchy_laws.writing };

    ghost stepping = { hierarchy_laws.stepping };
}
