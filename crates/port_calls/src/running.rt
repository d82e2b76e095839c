//! Scenarios, run.
ghost use Rattle.std.specs.Prelude.{◌≡◌, ◌↔◌, ◌&&◌, IsTrue, IsOk, IfOk, map};
ghost use Rattle.line.specs.Counts.{is_count};
ghost use Rattle.port_calls.specs.Running.{IsImage, not_made, RunsScenario};

use crate::scenarios::{Hierarchy, Scenario, Shape};
use anyhow::{Result, bail};
use line::LINE_SIZE;
use port::event::Call;
use port::run::Entry;
use replacement::geometry::Geometry;
use runs::on_ordered::run_on_ordered;
use runs::on_scripted::run_on_scripted;
use std::alloc::{AllocError, Global};

// The geometry of a shape.
fn geometry(shape: Shape) -> Result<Geometry>
    ensures value { IfOk result (λ g. (g.sets ≡ shape.sets) × (g.ways ≡ shape.ways)) }
    ensures lawful { IsOk result ↔ IsTrue (is_count shape.sets && is_count shape.ways) }
{
    match Geometry::new(shape.sets, shape.ways) {
        Ok(geometry) => Ok(geometry),
        Err(refusal) => bail!("refused {}", u8::from(refusal)),
    }
}

// The image of so many lines: the byte at address a is a mod 251.
fn new_image(alloc: Global, lines: u32) -> Result<Vec<u8>, AllocError>
    ensures { IfOk result (λ image. IsImage lines image.items) }
{
    let mut image = Vec::new(alloc);
    for address in 0..lines as usize * LINE_SIZE {
        // below 251: `TryFrom` would add an error that cannot come
        image.push((address % 251) as u8)?;
    }
    Ok(image)
}

// The calls, with nothing yet that became of them.
fn new_entries(alloc: Global, calls: &[Call]) -> Result<Vec<Entry>, AllocError>
    ensures { IfOk result (λ entries. entries.items ≡ map not_made calls.now) }
{
    calls
        .iter()
        .map(|call| Entry {
            call: *call,
            event: None,
        })
        .collect(alloc)
}

/// Makes the calls of a scenario on a new hierarchy, and answers what became of each.
pub fn run_scenario(alloc: Global, scenario: &Scenario) -> Result<Vec<Entry>>
    ensures { IfOk result (λ entries. RunsScenario scenario.now entries.items) }
{
    let mut image = new_image(alloc, scenario.lines)?;
    let mut entries = new_entries(alloc, scenario.calls)?;
    match scenario.hierarchy {
        Hierarchy::OnOrdered { latency, level } => {
            let _ = run_on_ordered(
                &mut image,
                scenario.bad_lines,
                latency,
                geometry(level)?,
                scenario.ration,
                &mut entries,
            );
        }
        Hierarchy::OnScripted {
            script,
            lower,
            upper,
        } => {
            let _ = run_on_scripted(
                &mut image,
                scenario.bad_lines,
                script,
                geometry(lower)?,
                geometry(upper)?,
                scenario.ration,
                &mut entries,
            );
        }
    }
    Ok(entries)
}
