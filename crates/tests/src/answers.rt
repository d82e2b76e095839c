//! The answers of a step.
ghost use Rattle.memory.specs.declared.replies.Status.TheVariants.{Line, Done, Fault as Faulty};
ghost use Rattle.std.specs.Prelude.{◌≡◌, Some};

use memory::replies::{Answer, Fault, Status};

// A line was read under this ticket.
pub(crate) fn line(ticket: u32) -> Option<Answer>
    ensures { result ≡ Some (record { ticket = ticket; status = Line }) }
{
    Some(Answer {
        ticket,
        status: Status::Line,
    })
}

// A line was written under this ticket.
pub(crate) fn done(ticket: u32) -> Option<Answer>
    ensures { result ≡ Some (record { ticket = ticket; status = Done }) }
{
    Some(Answer {
        ticket,
        status: Status::Done,
    })
}

// The request under this ticket came upon a bad line.
pub(crate) fn fault(ticket: u32, fault: Fault) -> Option<Answer>
    ensures { result ≡ Some (record { ticket = ticket; status = Faulty fault }) }
{
    Some(Answer {
        ticket,
        status: Status::Fault(fault),
    })
}
