//! Plays each sample trace beside this program and compares its listing with the one that another simulator gives for it.
//!
//! The samples lie in the folder that the program is run in: for each name a trace `NAME.trace` and its listing `NAME.listing`.
#![tactic(auto)]

mod comparing;
mod samples;

use anyhow::Result;
use samples::{NAMES, Tally, difference};

fn main(rt: HostRuntime) -> Result<()> {
    let mut tally = Tally::new();
    for name in NAMES {
        let difference = difference(&rt, name)?;
        tally.count(difference);
        match difference {
            None => println!(rt; "{name} agrees")?,
            Some(line) => println!(rt; "{name} differs at line {line}")?,
        }
    }
    let Tally { agree, differ } = tally;
    println!(rt; "{agree} agree, {differ} differ")?;
    Ok(())
}
