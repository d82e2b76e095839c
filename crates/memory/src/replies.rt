//! The replies of a memory, and the answers of its steps.
ghost use Rattle.std.specs.Prelude.{◌≡◌};
ghost use Rattle.memory.specs.Replies.{status_of, delivered};

/// What is wrong with a bad line: the level where the fault arose, the line there, and the cause.
#[derive(Clone, Copy, PartialEq, Eq, Debug)]
pub struct Fault {
    pub level: u8,
    pub line: u32,
    pub cause: u8,
}

/// The reply that is due to an open request.
#[derive(Clone, Copy, PartialEq, Eq, Debug, Default)]
pub enum Reply {
    /// The bytes of a line that was read.
    Line([u8; 16]),
    /// A line was written.
    #[default]
    Done,
    /// The line is bad.
    Fault(Fault),
}

/// What a step tells of a reply. The bytes of a line are in the buffer that was lent to the step.
#[derive(Clone, Copy, PartialEq, Eq, Debug)]
pub enum Status {
    /// A line was read.
    Line,
    /// A line was written.
    Done,
    /// The line is bad.
    Fault(Fault),
}

/// The answer of a step: the ticket of the request that it ends, and what became of it.
#[derive(Clone, Copy, PartialEq, Eq, Debug)]
pub struct Answer {
    pub ticket: u32,
    pub status: Status,
}

impl Reply {
    /// Puts a line into the buffer, which any other reply leaves untouched, and tells which reply it was.
    pub fn deliver(self, buffer: &mut [u8; 16]) -> Status
        ensures status { result ≡ status_of self }
        ensures buffer { buffer.new ≡ delivered self buffer.old }
    {
        match self {
            Reply::Line(bytes) => {
                *buffer = bytes;
                Status::Line
            }
            Reply::Done => Status::Done,
            Reply::Fault(fault) => Status::Fault(fault),
        }
    }
}
