//! The hierarchies that a setup names: one or two levels, with either rule each, on either memory.
ghost use Rattle.std.specs.Prelude.{IfOk, OnOk};
ghost use Rattle.calls.specs.Hierarchy.{IsImage, HasLevels, CanRun};

use crate::call::Call;
use crate::lists::List;
use crate::session::run;
use crate::setup::{Bottom, Rule, Shape};
use anyhow::{Result, bail, ensure};
use bottom::ordered::Ordered;
use bottom::scripted::Scripted;
use level::level::Level;
use line::LINE_SIZE;
use memory::limits::MOST_LINES;
use memory::memory::Memory;
use replacement::fifo::Fifo;
use replacement::lru::Lru;
use std::alloc::Global;

// The level that the faults of the memory at the bottom name.
const BOTTOM_LEVEL: u8 = 0;

// Makes the calls on one level on a memory.
fn run_level<M: Memory + Drop>(
    rt: &impl Print,
    alloc: Global,
    below: M,
    shape: Shape,
    calls: &[Call],
) -> Result<()> {
    match shape.rule {
        Rule::Lru => run(
            rt,
            alloc,
            Level::new(below, Lru::new(shape.geometry)),
            calls,
        ),
        Rule::Fifo => run(
            rt,
            alloc,
            Level::new(below, Fifo::new(shape.geometry)),
            calls,
        ),
    }
}

// Makes the calls on two levels on a memory.
fn run_two_levels<M: Memory + Drop>(
    rt: &impl Print,
    alloc: Global,
    below: M,
    lower: Shape,
    upper: Shape,
    calls: &[Call],
) -> Result<()> {
    match lower.rule {
        Rule::Lru => run_level(
            rt,
            alloc,
            Level::new(below, Lru::new(lower.geometry)),
            upper,
            calls,
        ),
        Rule::Fifo => run_level(
            rt,
            alloc,
            Level::new(below, Fifo::new(lower.geometry)),
            upper,
            calls,
        ),
    }
}

// Makes the calls of a list on the levels of its setup, on a memory.
fn run_levels<M: Memory + Drop>(rt: &impl Print, alloc: Global, below: M, list: &List) -> Result<()>
    ensures { OnOk result (HasLevels list.now.setup) }
{
    match *list.setup.levels.as_slice() {
        [shape] => run_level(rt, alloc, below, shape, &list.calls),
        [lower, upper] => run_two_levels(rt, alloc, below, lower, upper, &list.calls),
        _ => bail!("a hierarchy has 1 or 2 levels"),
    }
}

// The image of so many lines: the byte at address a is a mod 251.
fn new_image(alloc: Global, lines: u32) -> Result<Vec<u8>>
    ensures { IfOk result (λ image. IsImage lines image.items) }
{
    let mut image = Vec::new(alloc);
    for address in 0..lines as usize * LINE_SIZE {
        // below 251: `TryFrom` would add an error that cannot come
        image.push((address % 251) as u8)?;
    }
    Ok(image)
}

/// Makes the calls of a list on its hierarchy, and prints what each answers.
pub fn run_list(rt: &impl Print, alloc: Global, list: &List) -> Result<()>
    ensures { OnOk result (CanRun list.now.setup) }
{
    ensure!(list.setup.lines <= MOST_LINES, "too many lines");
    let mut image = new_image(alloc, list.setup.lines)?;
    match &list.setup.bottom {
        Some(Bottom::Ordered(latency)) => {
            let memory = Ordered::new(&mut image, BOTTOM_LEVEL, &list.setup.bad_lines, *latency);
            run_levels(rt, alloc, memory, list)
        }
        Some(Bottom::Scripted(script)) => {
            let memory = Scripted::new(&mut image, BOTTOM_LEVEL, &list.setup.bad_lines, script);
            run_levels(rt, alloc, memory, list)
        }
        None => bail!("no memory at the bottom"),
    }
}
