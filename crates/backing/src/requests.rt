//! Requests that are open.
ghost use Rattle.std.specs.Prelude.{◌≡◌, ◌≤◌, length};
ghost use Rattle.backing.specs.Differ.{Distinct-prop};
ghost use Rattle.backing.specs.Open.{ticket_of, most_open};
ghost use Rattle.list.specs.Keyed.{Distinct};

use arrayvec::ArrayVec;
use list::keyed::{Keyed, entry_of, take};
use memory::replies::Reply;
use memory::tickets::{Tickets, unopened_ticket};

/// A request that was taken under a ticket, and the reply that is due to it since then.
#[derive(Clone, Copy, Default)]
pub struct Request {
    pub ticket: u32,
    pub reply: Reply,
}

/// Open requests are told apart by their tickets.
impl Keyed for Request {
    ghost key = { ticket_of };

    fn key_of(&self) -> u32 {
        self.ticket
    }
}

/// The requests that are open, oldest first: at most `LIMIT`, and no two under one ticket.
#[derive(Drop)]
pub struct Requests<const LIMIT: usize> {
    list: ArrayVec<Request, LIMIT>,
    ghost differ: { Distinct ticket_of list.items } by { Distinct-prop ticket_of list.items },
    // and no more than there are tickets
    ghost few: { length list.items ≤ most_open LIMIT },
}

impl<const LIMIT: usize> Requests<LIMIT> {
    ghost use Rattle.std.specs.Prelude.{[]};
    ghost use Rattle.backing.specs.Requests.{open_of, Accepts, Closes};

    /// None is open.
    pub fn new() -> Requests<LIMIT>
        ensures { open_of result ≡ [] }
    {
        Requests {
            list: ArrayVec::new(),
        }
    }

    /// How many are open.
    pub fn len(&self) -> usize
        ensures { result ≡ length (open_of self.now) }
    {
        self.list.len()
    }

    /// Opens a request to which this reply is due, and answers its ticket, which none had that is open; or nothing where
    /// as many are open as can be.
    pub fn accept(&mut self, reply: Reply) -> Option<u32>
        ensures { Accepts (most_open LIMIT) self.old reply result self.new }
    {
        // fewer than there are tickets, so one is not open
        if self.list.len() >= LIMIT.min(u32::MAX as usize) {
            return None;
        }
        let ticket = unopened_ticket(self)?;
        self.list.push(Request { ticket, reply });
        Some(ticket)
    }

    /// Closes the request at this index, which is then no longer open; or nothing where there is none.
    pub fn close(&mut self, index: usize) -> Option<Request>
        ensures { Closes index self.old result self.new }
    {
        let request = *self.list.as_slice().get(index)?;
        let _ = take(&mut self.list, request.ticket);
        Some(request)
    }
}

/// A ticket is open while a request has it.
impl<const LIMIT: usize> Tickets for Requests<LIMIT> {
    ghost use Rattle.backing.specs.Open.{is_open};
    ghost use Rattle.backing.specs.Requests.{open_of};

    ghost is_open = { λ requests. is_open (open_of requests) };

    fn is_open(&self, ticket: u32) -> bool {
        entry_of(self.list.as_slice(), ticket).is_some()
    }
}
