//! Lists of calls as text, and how they are read.
ghost use Rattle.std.specs.Prelude.{[], IfOk};
ghost use Rattle.std.specs.Str.Lines.{lines};
ghost use Rattle.calls.specs.Lists.{IsNewList, TakesWords, AddsWords, AddsLine, AddsLines};

use crate::call::Call;
use crate::setup::Setup;
use anyhow::{Context, Result, bail};
use std::alloc::Global;

/// The setup of a hierarchy, and the calls that are made on it.
#[derive(Drop)]
pub struct List {
    pub setup: Setup,
    pub calls: Vec<Call>,
    // The calls begin behind a line of their own.
    is_set_up: bool,
}

impl List {
    // A list of no calls, on memories with so many lines.
    fn new(alloc: Global, lines: u32) -> List
        ensures { IsNewList lines result }
    {
        List {
            setup: Setup::new(alloc, lines),
            calls: Vec::new(alloc),
            is_set_up: false,
        }
    }

    // Takes the words of one more line of this list.
    fn add(&mut self, alloc: Global, words: &[&str]) -> Result<()>
        ensures { TakesWords words.now self.old result self.new }
    {
        if self.is_set_up {
            self.calls.push(Call::read(words)?)?;
        } else if matches!(*words, ["calls"]) {
            self.is_set_up = true;
        } else {
            self.setup.add(alloc, words)?;
        }
        Ok(())
    }
}

// Takes the words of one more line: `lines N` begins another list, and every other line belongs to the last one.
fn add_words(alloc: Global, lists: &mut Vec<List>, words: &[&str]) -> Result<()>
    ensures { AddsWords words.now lists.old.items result lists.new.items }
{
    if let ["lines", lines] = *words {
        lists.push(List::new(alloc, lines.parse()?))?;
        return Ok(());
    }
    match lists.last_mut() {
        Some(list) => list.add(alloc, words),
        None => bail!("no list begins before this line"),
    }
}

// Takes one more line.
fn add_line(alloc: Global, lists: &mut Vec<List>, line: &str) -> Result<()>
    ensures { AddsLine line.now lists.old.items result lists.new.items }
{
    let words: Vec<&str> = line.split_whitespace().collect(alloc)?;
    add_words(alloc, lists, &words)
}

/// Reads the lists of a text, one behind the other.
pub fn read_lists(alloc: Global, text: &str) -> Result<Vec<List>>
    ensures { IfOk result (λ lists. AddsLines (lines text.now) [] lists.items) }
{
    let mut lists = Vec::new(alloc);
    for (index, line) in text.lines().enumerate() {
        add_line(alloc, &mut lists, line).context(format_args!("line {}", index + 1))?;
    }
    Ok(lists)
}
