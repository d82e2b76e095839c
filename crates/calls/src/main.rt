//! Makes lists of calls on hierarchies, as standard input has them, and prints what each call answers.
//!
//! A list begins with its setup, a line each: `lines N`; `bottom ordered LATENCY` or `bottom scripted HEX`; `bad LINE CAUSE`
//! for each bad line; `level SETS WAYS RULE` for one level or two, the one next to the bottom first. Behind a line `calls`
//! stand the calls, a line each, all of the topmost level: `read LINE`, `write LINE MASK BYTES`, `step`, `standing LINE`.
//! The next line `lines N` begins another list.
#![tactic(auto)]

mod call;
mod hierarchy;
mod lists;
mod outcome;
mod session;
mod setup;

use anyhow::Result;
use hierarchy::run_list;
use lists::read_lists;
use std::io::Read;

fn main(rt: HostRuntime) -> Result<()> {
    let alloc = rt.alloc();
    let mut text = String::new(alloc);
    rt.stdin().read_to_string(&mut text)?;
    for list in &read_lists(alloc, &text)? {
        run_list(&rt, alloc, list)?;
    }
    Ok(())
}
