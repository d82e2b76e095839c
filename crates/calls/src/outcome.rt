//! What calls answer, as lines of text.
use level_model::standing::Standing;
use level_model::ways::Condition;
use memory::refusal::Refusal;
use memory::replies::Reply;
use std::fmt;

/// What a call answers. Requests are numbered from 1, in the order in which they were taken.
#[derive(Clone, Copy)]
pub enum Outcome {
    /// The request with this number was taken.
    Taken(usize),
    /// The request was refused.
    Refused(Refusal),
    /// A step answered no request.
    Nothing,
    /// A step answered the request with this number.
    Answered(usize, Reply),
    /// Where a line stands.
    Standing(Standing),
}

// What is written here is in no contract: the lines of a run are compared with those that are wanted.

// Writes what a request is answered.
fn write_reply<W: fmt::Write>(f: &mut fmt::Formatter<W>, reply: Reply) -> fmt::Result {
    match reply {
        Reply::Line(bytes) => {
            write!(f, "line ")?;
            for byte in bytes {
                write!(f, "{byte:02x}")?;
            }
            Ok(())
        }
        Reply::Done => write!(f, "done"),
        Reply::Fault(fault) => write!(f, "fault {} {} {}", fault.level, fault.line, fault.cause),
    }
}

// Writes where a line stands.
fn write_standing<W: fmt::Write>(f: &mut fmt::Formatter<W>, standing: Standing) -> fmt::Result {
    match standing.way {
        Some(way) => write!(f, "{way}")?,
        None => write!(f, "-")?,
    }
    let condition = match standing.condition {
        Condition::Clean => "clean",
        Condition::Dirty => "dirty",
    };
    let targets = standing.targets;
    let waits = if standing.waits { "waits" } else { "no" };
    let queued = if standing.queued { "queued" } else { "no" };
    write!(f, " {condition} {targets} {waits} {queued}")
}

impl fmt::Display for Outcome {
    fn fmt<W: fmt::Write>(&self, f: &mut fmt::Formatter<W>) -> fmt::Result {
        match *self {
            Outcome::Taken(number) => write!(f, "taken {number}"),
            Outcome::Refused(refusal) => write!(f, "refused {}", u8::from(refusal)),
            Outcome::Nothing => write!(f, "nothing"),
            Outcome::Answered(number, reply) => {
                write!(f, "answer {number} ")?;
                write_reply(f, reply)
            }
            Outcome::Standing(standing) => write_standing(f, standing),
        }
    }
}
