//! The records of a trace, and the numbers that stand there for kinds and rules.
ghost use Rattle.std.specs.Prelude.{◌≡◌, ◌<◌, false, MatchResult};
ghost use Rattle.trace.specs.Items.{empty_buffer};
ghost use Rattle.trace.specs.Kinds.{kind_number, rule_number};
ghost use Rattle.trace.specs.Numbers.{within};

use crate::refusal::Refusal;
use memory::bad_line::BadLine;
use memory::limits::{LONGEST_SCRIPT, MOST_BAD_LINES};

/// The kind of a record.
#[derive(Clone, Copy, PartialEq, Eq, Debug)]
pub enum Kind {
    Setup,
    Load,
    Store,
    Pass,
    Note,
}

/// The number of the kind.
impl From<Kind> for u8 {
    ghost from_gives = { λ kind n. n ≡ kind_number kind };

    fn from(kind: Kind) -> u8 {
        match kind {
            Kind::Setup => 0,
            Kind::Load => 1,
            Kind::Store => 2,
            Kind::Pass => 3,
            Kind::Note => 4,
        }
    }
}

/// The kind with that number, or a refusal where none has it.
impl TryFrom<u8> for Kind {
    ghost use Rattle.trace.specs.declared.records.Kind.{Kind};
    ghost use Rattle.trace.specs.declared.refusal.Refusal.{Refusal};

    type Error = Refusal;

    ghost try_from_gives = { λ n r. MatchResult r (λ kind. kind_number kind ≡ n) (λ e. (e ≡ Refusal.NoKind) × (kind_number Kind.Note < n)) };

    fn try_from(number: u8) -> Result<Kind, Refusal> {
        match number {
            0 => Ok(Kind::Setup),
            1 => Ok(Kind::Load),
            2 => Ok(Kind::Store),
            3 => Ok(Kind::Pass),
            4 => Ok(Kind::Note),
            _ => Err(Refusal::NoKind),
        }
    }
}

/// A replacement rule, by name.
#[derive(Clone, Copy, PartialEq, Eq, Debug)]
pub enum Rule {
    Lru,
    Fifo,
}

/// The number of the rule.
impl From<Rule> for u64 {
    ghost from_gives = { λ rule n. n ≡ rule_number rule };

    fn from(rule: Rule) -> u64 {
        match rule {
            Rule::Lru => 1,
            Rule::Fifo => 2,
        }
    }
}

/// The rule with that number, or a refusal where none has it.
impl TryFrom<u64> for Rule {
    ghost use Rattle.trace.specs.declared.records.Rule.{Rule};
    ghost use Rattle.trace.specs.declared.refusal.Refusal.{Refusal};

    type Error = Refusal;

    ghost try_from_gives = { λ n r. MatchResult r (λ rule. rule_number rule ≡ n) (λ e. (e ≡ Refusal.Limit) × (within (rule_number Rule.Lru) (rule_number Rule.Fifo) n ≡ false)) };

    fn try_from(number: u64) -> Result<Rule, Refusal> {
        match number {
            1 => Ok(Rule::Lru),
            2 => Ok(Rule::Fifo),
            _ => Err(Refusal::Limit),
        }
    }
}

/// A cache level as a setup names it.
#[derive(Clone, Copy)]
pub struct Level {
    pub sets: u8,
    pub ways: u8,
    pub rule: Rule,
}

/// The count of levels where there is the lowest alone.
pub(crate) const ONE_LEVEL: u64 = 1;

/// The count of levels where there is an upper one too.
pub(crate) const TWO_LEVELS: u64 = 2;

/// The number of a memory that answers in order.
pub(crate) const ORDERED: u64 = 1;

/// The number of a memory that answers by a script.
pub(crate) const SCRIPTED: u64 = 2;

/// The memory at the bottom.
#[derive(Clone, Copy)]
pub enum Bottom {
    /// Answers in order, each after so many steps.
    Ordered { latency: u8 },
    /// Answers by a script: its first `length` bytes in the setup's buffer.
    Scripted { length: u8 },
}

/// The first record of a trace, but for its script and its bad lines.
#[derive(Clone, Copy)]
pub struct Setup {
    /// How many lines the memory has.
    pub lines: u32,
    pub bottom: Bottom,
    /// How many of the buffer's bad lines are this setup's, from the first.
    pub bad_line_count: u8,
    pub lowest: Level,
    pub upper: Option<Level>,
}

/// The script and the bad lines of a setup.
// The caller lends it, at a fixed size, so that reading takes no memory: a setup tells how much of it is its own.
#[derive(Clone, Copy)]
pub struct SetupBuffer {
    pub script: [u8; LONGEST_SCRIPT],
    pub bad_lines: [BadLine; MOST_BAD_LINES],
}

impl SetupBuffer {
    /// A buffer of zeros, for the first setup to go into.
    pub fn empty() -> SetupBuffer
        ensures { result ≡ empty_buffer }
    {
        let none = BadLine { line: 0, cause: 0 };
        SetupBuffer {
            script: [0; LONGEST_SCRIPT],
            bad_lines: [none; MOST_BAD_LINES],
        }
    }
}

/// A record of a trace.
#[derive(Clone, Copy)]
pub enum Record<'a> {
    Setup(Setup),
    Load { size: u8, address: u32 },
    Store { size: u8, address: u32, value: u64 },
    Pass { steps: u16 },
    /// The text is the trace's own bytes, which begin at `offset`.
    Note { text: &'a [u8], offset: usize },
}
