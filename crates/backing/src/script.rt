//! The script of a memory that answers as it says.
ghost use Rattle.std.specs.Prelude.{◌≡◌, ◌<◌, false, length};
ghost use Rattle.list.specs.Zeros.{all_zero};

use arrayvec::ArrayVec;
use list::slices::{all_zero, front};
use memory::limits::LONGEST_SCRIPT;

/// Bytes that are used one in each step, and from the first again after the last.
#[derive(Drop)]
pub struct Script {
    bytes: ArrayVec<u8, LONGEST_SCRIPT>,
    index: usize,
    ghost within: { index < length bytes.items },
    ghost answers: { all_zero bytes.items ≡ false },
}

impl Script {
    ghost use Rattle.backing.specs.Script.{script_bytes, next_index_of, counted_script, script_answers, ScriptSteps};

    /// A script at its first byte. Of the bytes the first `LONGEST_SCRIPT` count, and a script that never answers counts as
    /// a single 1.
    pub fn new(bytes: &[u8]) -> Script
        ensures bytes { script_bytes result ≡ counted_script bytes.now }
        ensures index { next_index_of result ≡ 0 }
    {
        let first = front(bytes, LONGEST_SCRIPT);
        let counted: &[u8] = if all_zero(first) { &[1] } else { first };
        Script {
            bytes: ArrayVec::try_from(counted).unwrap(),
            index: 0,
        }
    }

    /// Makes a step while so many requests are open, and tells which of them, oldest first, is answered in it, if one is.
    pub fn step(&mut self, open_count: usize) -> Option<usize>
        ensures answers { result ≡ script_answers self.old open_count }
        ensures after { ScriptSteps self.old self.new }
    {
        let byte = usize::from(self.bytes[self.index]);
        let next = self.index + 1;
        // a remainder would be a division in each step
        self.index = if next < self.bytes.len() { next } else { 0 };
        byte.min(open_count).checked_sub(1)
    }
}
