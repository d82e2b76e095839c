//! Miss registers: lines that are awaited from below, and the requests that wait for them.
ghost use Rattle.std.specs.Prelude.{◌≡◌, is_some};
ghost use Rattle.list.specs.Keyed.{entry_of};
ghost use Rattle.level_model.specs.Registers.{ticket_of, target_ticket, register_line, queued_line, reply_to, bytes_asked, condition_asked, is_waiting, is_sent_under};

use crate::ways::Condition;
use arrayvec::ArrayVec;
use line::laying::lay;
use list::keyed::{Keyed, entry_of};
use memory::replies::{Fault, Reply};

/// The most requests that wait for one line.
pub(crate) const MOST_TARGETS: usize = 4;

/// What a request asks of its line.
#[derive(Clone, Copy, PartialEq, Eq, Debug, Default)]
pub enum Ask {
    /// Its bytes.
    #[default]
    Read,
    /// New bytes laid on it, where the mask says.
    Write(u16, [u8; 16]),
}

impl Ask {
    /// The reply to it, of a line that has this fault, or of a good one with these bytes.
    pub(crate) fn reply_to(self, fault: Option<Fault>, bytes: [u8; 16]) -> Reply
        ensures { result ≡ reply_to fault bytes self }
    {
        match (fault, self) {
            (Some(fault), _) => Reply::Fault(fault),
            (None, Ask::Read) => Reply::Line(bytes),
            (None, Ask::Write(_, _)) => Reply::Done,
        }
    }

    /// The bytes of the line after it.
    pub(crate) fn bytes_asked(self, fault: Option<Fault>, bytes: [u8; 16]) -> [u8; 16]
        ensures { result ≡ bytes_asked fault bytes self }
    {
        match (fault, self) {
            (None, Ask::Write(mask, new)) => lay(bytes, mask, new),
            (None, Ask::Read) | (Some(_), _) => bytes,
        }
    }

    /// Whether the memory below holds the same bytes of the line after it.
    pub(crate) fn condition_asked(self, condition: Condition) -> Condition
        ensures { result ≡ condition_asked condition self }
    {
        match self {
            Ask::Read => condition,
            Ask::Write(_, _) => Condition::Dirty,
        }
    }
}

/// A request that waits for its line.
#[derive(Clone, Copy, PartialEq, Eq, Debug, Default)]
pub(crate) struct Target {
    /// The ticket of the request, on this level.
    pub ticket: u32,
    /// What it asks.
    pub ask: Ask,
}

/// A request is told apart by its ticket.
impl Keyed for Target {
    ghost key = { target_ticket };

    fn key_of(&self) -> u32 {
        self.ticket
    }
}

/// Whether a register was sent.
#[derive(Clone, Copy, PartialEq, Eq, Debug, Default)]
pub(crate) enum Progress {
    /// It waits: its line is still to be read below.
    #[default]
    Waiting,
    /// Its line was read below, under this ticket of the memory below.
    Sent(u32),
}

impl Progress {
    // Whether the register waits.
    pub(crate) fn is_waiting(&self) -> bool
        ensures { result ≡ is_waiting self.now }
    {
        match self {
            Progress::Waiting => true,
            Progress::Sent(_) => false,
        }
    }

    // Whether it was sent under this ticket.
    pub(crate) fn is_sent_under(&self, ticket: u32) -> bool
        ensures { result ≡ is_sent_under ticket self.now }
    {
        match self {
            Progress::Waiting => false,
            Progress::Sent(sent) => *sent == ticket,
        }
    }
}

/// A line that is awaited from below.
#[derive(Default, Drop)]
pub(crate) struct Register {
    /// Its number.
    pub line: u32,
    /// The requests that wait for it, oldest first.
    pub targets: ArrayVec<Target, MOST_TARGETS>,
    /// Whether it was sent.
    pub progress: Progress,
}

impl Register {
    // Whether a target has this ticket.
    pub(crate) fn has_target(&self, ticket: u32) -> bool
        ensures { result ≡ is_some (entry_of target_ticket ticket self.now.targets.items) }
    {
        entry_of(self.targets.as_slice(), ticket).is_some()
    }
}

/// A register is told apart by its line.
impl Keyed for Register {
    ghost key = { register_line };

    fn key_of(&self) -> u32 {
        self.line
    }
}

/// An answer that is ready.
#[derive(Clone, Copy, PartialEq, Eq, Debug, Default)]
pub struct Ready {
    /// The ticket of the request, on this level.
    pub ticket: u32,
    /// The reply that was due to it.
    pub reply: Reply,
}

/// An answer is told apart by its ticket.
impl Keyed for Ready {
    ghost key = { ticket_of };

    fn key_of(&self) -> u32 {
        self.ticket
    }
}

/// A line that was replaced and is still to be written below.
#[derive(Clone, Copy, PartialEq, Eq, Debug, Default)]
pub struct QueuedLine {
    /// Its number.
    pub line: u32,
    /// Its bytes.
    pub bytes: [u8; 16],
}

/// A queued line is told apart by its number.
impl Keyed for QueuedLine {
    ghost key = { queued_line };

    fn key_of(&self) -> u32 {
        self.line
    }
}
