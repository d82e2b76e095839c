//! Setups of hierarchies as lines of text.
ghost use Rattle.std.specs.Prelude.{◌≡◌, ◌↔◌, ◌&&◌, IsTrue, IsOk, IfOk};
ghost use Rattle.line.specs.Counts.{is_count};
ghost use Rattle.calls.specs.declared.setup.Rule.{Rule};
ghost use Rattle.calls.specs.Setup.{rule_name, IsNew, TakesLine};

use anyhow::{Result, bail};
use memory::bad_line::BadLine;
use replacement::geometry::Geometry;
use std::alloc::Global;

/// The memory at the bottom.
#[derive(Drop)]
pub enum Bottom {
    /// `bottom ordered LATENCY`
    Ordered(u8),
    /// `bottom scripted HEX`
    Scripted(Vec<u8>),
}

/// A replacement rule, by name.
#[derive(Clone, Copy)]
pub enum Rule {
    Lru,
    Fifo,
}

/// A level: `level SETS WAYS RULE`.
#[derive(Clone, Copy)]
pub struct Shape {
    pub geometry: Geometry,
    pub rule: Rule,
}

/// A hierarchy as a list sets it up.
#[derive(Drop)]
pub struct Setup {
    /// How many lines the memory at the bottom has.
    pub lines: u32,
    /// None until its line was read.
    pub bottom: Option<Bottom>,
    /// `bad LINE CAUSE`, for each bad line.
    pub bad_lines: Vec<BadLine>,
    /// The one next to the bottom comes first.
    pub levels: Vec<Shape>,
}

// Reads the name of a rule.
fn read_rule(name: &str) -> Result<Rule>
    ensures { (rule : Rule) → (result ≡ Ok rule) ↔ (name.now ≡ rule_name rule) }
{
    match name {
        "lru" => Ok(Rule::Lru),
        "fifo" => Ok(Rule::Fifo),
        _ => bail!("no rule has this name"),
    }
}

// The geometry of so many sets of so many ways.
fn geometry(sets: usize, ways: usize) -> Result<Geometry>
    ensures value { IfOk result (λ g. (g.sets ≡ sets) × (g.ways ≡ ways)) }
    ensures lawful { IsOk result ↔ IsTrue (is_count sets && is_count ways) }
{
    match Geometry::new(sets, ways) {
        Ok(geometry) => Ok(geometry),
        Err(refusal) => bail!("refused {}", u8::from(refusal)),
    }
}

impl Setup {
    /// A setup of so many lines, with nothing else in it yet.
    pub fn new(alloc: Global, lines: u32) -> Setup
        ensures { IsNew lines result }
    {
        Setup {
            lines,
            bottom: None,
            bad_lines: Vec::new(alloc),
            levels: Vec::new(alloc),
        }
    }

    /// Takes the words of one more line of this setup.
    pub fn add(&mut self, alloc: Global, words: &[&str]) -> Result<()>
        ensures { TakesLine words.now self.old result self.new }
    {
        match *words {
            ["bottom", "ordered", latency] => {
                self.bottom = Some(Bottom::Ordered(latency.parse()?));
            }
            ["bottom", "scripted", script] => {
                self.bottom = Some(Bottom::Scripted(hex::decode(alloc, script)?));
            }
            ["bad", line, cause] => self.bad_lines.push(BadLine {
                line: line.parse()?,
                cause: cause.parse()?,
            })?,
            ["level", sets, ways, rule] => self.levels.push(Shape {
                geometry: geometry(sets.parse()?, ways.parse()?)?,
                rule: read_rule(rule)?,
            })?,
            _ => bail!("no line of a setup"),
        }
        Ok(())
    }
}
