//! Makes lists of calls of a port on two hierarchies, and prints what becomes of each call.
//!
//! The lists are the constants of `scenarios`; nothing is read. Each is printed as a line `scenario NAME` and a line for each call:
//! the call, ` -> `, and its outcome.
#![tactic(auto)]

mod print;
mod running;
mod scenarios;

use anyhow::{Context, Result};
use print::Printed;
use running::run_scenario;
use scenarios::SCENARIOS;

// What is printed is in no contract: it is compared with what is wanted, line for line.
fn main(rt: HostRuntime) -> Result<()> {
    let alloc = rt.alloc();
    for scenario in &SCENARIOS {
        println!(rt; "scenario {}", scenario.name)?;
        for entry in &run_scenario(alloc, scenario)? {
            let event = entry.event.context("a call that was not made")?;
            println!(rt; "{}", Printed(event))?;
        }
    }
    Ok(())
}
