//! Calls on a level, one after another.
ghost use Rattle.std.specs.Prelude.{◌≡◌, ◌<◌, position, IsOk, vec_len, vec_capacity};
ghost use Rattle.calls.specs.Session.{is_open_as, Asked, Closed, Made};

use crate::call::Call;
use crate::outcome::Outcome;
use anyhow::{Context, Result};
use level::level::Level;
use line::LINE_SIZE;
use memory::memory::Memory;
use memory::refusal::Refusal;
use memory::replies::{Answer, Reply, Status};
use replacement::rule::Replacement;
use std::alloc::Global;

// The requests that a level took.
#[derive(Drop)]
struct Requests {
    // The ticket of each, in the order in which they were taken; none once it was answered.
    tickets: Vec<Option<u32>>,
}

impl Requests {
    // What a request is answered at once. One that was taken gets the next number.
    fn ask(&mut self, answer: Result<u32, Refusal>) -> Result<Outcome>
        ensures asked { Asked self.old.tickets.items answer result self.new.tickets.items }
        ensures room { vec_len self.old.tickets < vec_capacity self.old.tickets → IsOk result }
    {
        match answer {
            Ok(ticket) => {
                self.tickets.push(Some(ticket))?;
                Ok(Outcome::Taken(self.tickets.len()))
            }
            Err(refusal) => Ok(Outcome::Refused(refusal)),
        }
    }

    // The index of the first request that is open under a ticket.
    fn index_of(&self, ticket: u32) -> Option<usize>
        ensures { result ≡ position (is_open_as ticket) self.now.tickets.items }
    {
        self.tickets.iter().position(|open| *open == Some(ticket))
    }

    // Takes the answer of a step, and the bytes that came with it. It is an error that its ticket is not open.
    fn close(&mut self, answer: Answer, bytes: [u8; 16]) -> Result<Outcome>
        ensures { Closed self.old.tickets.items answer bytes result self.new.tickets.items }
    {
        let index = self
            .index_of(answer.ticket)
            .context("an answer to no request")?;
        self.tickets[index] = None;
        let reply = match answer.status {
            Status::Line => Reply::Line(bytes),
            Status::Done => Reply::Done,
            Status::Fault(fault) => Reply::Fault(fault),
        };
        Ok(Outcome::Answered(index + 1, reply))
    }
}

// Makes a call.
fn make<M: Memory + Drop, R: Replacement + Drop>(
    level: &mut Level<M, R>,
    requests: &mut Requests,
    call: Call,
) -> Result<Outcome>
    ensures { Made level.old requests.old.tickets.items call result level.new requests.new.tickets.items }
{
    match call {
        Call::Read(line) => requests.ask(level.read(line)),
        Call::Write(line, mask, new) => requests.ask(level.write(line, mask, new)),
        Call::Step => {
            let mut bytes = [0; LINE_SIZE];
            match level.step(&mut bytes) {
                Some(answer) => requests.close(answer, bytes),
                None => Ok(Outcome::Nothing),
            }
        }
        Call::Standing(line) => Ok(Outcome::Standing(level.standing(line))),
    }
}

/// Makes these calls on a new level, and prints what each answers.
// What is printed is in no contract: it is compared with what is wanted, line for line.
pub fn run<M: Memory + Drop, R: Replacement + Drop>(
    rt: &impl Print,
    alloc: Global,
    level: Level<M, R>,
    calls: &[Call],
) -> Result<()> {
    let mut level = level;
    let mut requests = Requests {
        tickets: Vec::new(alloc),
    };
    for call in calls {
        let outcome = make(&mut level, &mut requests, *call)?;
        println!(rt; "{outcome}")?;
    }
    Ok(())
}
