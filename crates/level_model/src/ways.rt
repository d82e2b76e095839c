//! The ways of a level, set by set.
ghost use Rattle.std.specs.Prelude.{◌≡◌, ◌≤◌, length};
ghost use Rattle.level_model.specs.Limits.{most_ways};
ghost use Rattle.level_model.specs.Ways.{empty_ways, is_empty, is_reserved, holds, is_for, row, way_at, holding, index_for, lowest_empty, unreserved, with_way};

use list::slices::front;
use replacement::geometry::{MOST_SETS, MOST_WAYS};

/// Whether the memory below holds the same bytes of a line.
#[derive(Clone, Copy, PartialEq, Eq, Debug)]
pub enum Condition {
    /// It does.
    Clean,
    /// It may not: the line was written here.
    Dirty,
}

/// A line that a way holds.
#[derive(Clone, Copy, PartialEq, Eq, Debug)]
pub(crate) struct CachedLine {
    /// Its number.
    pub line: u32,
    /// Its bytes.
    pub bytes: [u8; 16],
    /// Whether the memory below holds the same.
    pub condition: Condition,
}

/// What a way holds.
#[derive(Clone, Copy, PartialEq, Eq, Debug, Default)]
pub(crate) enum Way {
    /// Nothing.
    #[default]
    Empty,
    /// Nothing yet: it is reserved for this line, which is awaited from below.
    Reserved(u32),
    /// A line.
    Filled(CachedLine),
}

impl Way {
    // Whether it holds nothing and is not reserved.
    fn is_empty(&self) -> bool
        ensures { result ≡ is_empty self.now }
    {
        match self {
            Way::Empty => true,
            Way::Reserved(_) | Way::Filled(_) => false,
        }
    }

    // Whether it is reserved.
    fn is_reserved(&self) -> bool
        ensures { result ≡ is_reserved self.now }
    {
        match self {
            Way::Reserved(_) => true,
            Way::Empty | Way::Filled(_) => false,
        }
    }

    // Whether it holds this line.
    fn holds(&self, line: u32) -> bool
        ensures { result ≡ holds line self.now }
    {
        match self {
            Way::Filled(held) => held.line == line,
            Way::Empty | Way::Reserved(_) => false,
        }
    }

    // Whether it holds this line, or is reserved for it.
    fn is_for(&self, line: u32) -> bool
        ensures { result ≡ is_for line self.now }
    {
        match self {
            Way::Empty => false,
            Way::Reserved(awaited) => *awaited == line,
            Way::Filled(held) => held.line == line,
        }
    }
}

/// The ways of all sets. Those of a geometry are the first of the first sets.
#[derive(Clone, Copy)]
pub(crate) struct Ways {
    sets: [[Way; MOST_WAYS]; MOST_SETS],
}

impl Ways {
    // All ways are empty.
    pub(crate) fn new() -> Ways
        ensures { result ≡ empty_ways }
    {
        Ways {
            sets: [[Way::Empty; MOST_WAYS]; MOST_SETS],
        }
    }

    // The ways of a set, or none where there is no such set.
    fn row(&self, set: usize) -> &[Way]
        ensures value { result.now ≡ row self.now set }
        ensures few { length result.now ≤ most_ways }
    {
        match self.sets.get(set) {
            Some(row) => row,
            None => &[],
        }
    }

    // What a way of a set holds; nothing where there is no such way.
    pub(crate) fn way(&self, set: usize, way: usize) -> Way
        ensures { result ≡ way_at self.now set way }
    {
        self.row(set).get(way).copied().unwrap_or(Way::Empty)
    }

    // The way of a set that holds a line, or none.
    pub(crate) fn holding(&self, set: usize, line: u32) -> Option<usize>
        ensures { result ≡ holding line (row self.now set) }
    {
        self.row(set).iter().position(|way| way.holds(line))
    }

    // The way of a set that holds a line or is reserved for it, or none.
    pub(crate) fn index_for(&self, set: usize, line: u32) -> Option<usize>
        ensures { result ≡ index_for line (row self.now set) }
    {
        self.row(set).iter().position(|way| way.is_for(line))
    }

    // The lowest empty way among the first `ways` of a set, or none.
    pub(crate) fn lowest_empty(&self, set: usize, ways: usize) -> Option<usize>
        ensures { result ≡ lowest_empty ways (row self.now set) }
    {
        front(self.row(set), ways)
            .iter()
            .position(|way| way.is_empty())
    }

    // The ways of a set that are not reserved: bit w of the mask is way w.
    pub(crate) fn unreserved(&self, set: usize) -> u8
        ensures { result ≡ unreserved (row self.now set) }
    {
        let mut mask = 0;
        for way in self.row(set).iter().rev() {
            mask = mask << 1 | u8::from(!way.is_reserved());
        }
        mask
    }

    // Puts something else into a way; nothing changes where there is no such way.
    pub(crate) fn put(&mut self, set: usize, way: usize, new: Way)
        ensures { self.new ≡ with_way set way new self.old }
    {
        if way < self.row(set).len() {
            self.sets[set][way] = new;
        }
    }
}
