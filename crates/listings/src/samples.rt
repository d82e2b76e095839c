//! The samples, and how one is tried.
ghost use Rattle.std.specs.Prelude.{◌≡◌, IfOk};
ghost use Rattle.listings.specs.Samples.{counted, Tried};

use crate::comparing::first_difference;
use anyhow::Result;
use playing::playing::play;
use std::alloc::Global;
use std::fs::File;
use std::io::Read;
use std::rt::Files;
use std::{fs, io};

/// The names of the samples.
pub const NAMES: [&str; 37] = [
    "cut-in-record",
    "damaged-00",
    "damaged-01",
    "damaged-02",
    "damaged-03",
    "damaged-04",
    "damaged-05",
    "damaged-06",
    "damaged-07",
    "empty",
    "geometry-3",
    "kind-too-high",
    "longest",
    "note-bad-byte",
    "number-not-shortest",
    "number-too-large",
    "pass-0",
    "pass-1001",
    "past-the-limit",
    "random-00",
    "random-01",
    "random-02",
    "random-03",
    "random-04",
    "random-05",
    "random-06",
    "random-07",
    "random-08",
    "random-09",
    "random-10",
    "random-11",
    "script-all-zero",
    "session",
    "setup-missing",
    "setup-only",
    "setup-repeated",
    "sixteen-merged",
];

/// How many samples agree, and how many do not.
#[derive(Clone, Copy)]
pub struct Tally {
    pub agree: u64,
    pub differ: u64,
}

impl Tally {
    /// Of no samples.
    pub fn new() -> Tally
        ensures { result ≡ record { agree = 0; differ = 0 } }
    {
        Tally {
            agree: 0,
            differ: 0,
        }
    }

    /// Counts one sample more, with the line at which it differs.
    pub fn count(&mut self, difference: Option<usize>)
        ensures { self.new ≡ counted difference self.old }
    {
        match difference {
            None => self.agree = self.agree.saturating_add(1),
            Some(_) => self.differ = self.differ.saturating_add(1),
        }
    }
}

// The first line in which the listing of the trace that a reader gives differs from another; nothing where they are the same.
fn compared<R: Read>(alloc: Global, trace: &mut R, wanted: &[u8]) -> io::Result<Option<usize>>
    ensures { IfOk result (λ difference. Tried (R.remaining trace.old) wanted.now difference) }
{
    let mut listing = Vec::new(alloc);
    play(trace, &mut listing)?;
    Ok(first_difference(&listing, wanted))
}

/// The first line in which the listing of a sample differs from the one that lies beside its trace; nothing where they are the same.
pub fn difference<R: Files + AllocGlobal>(rt: &R, name: &str) -> Result<Option<usize>> {
    let alloc = rt.alloc();
    let mut trace = File::open(rt, format!(in alloc; "{name}.trace")?)?;
    let wanted = fs::read(rt, format!(in alloc; "{name}.listing")?)?;
    Ok(compared(alloc, &mut trace, &wanted)?)
}
