//! Tickets that are open, and one that is not.
ghost use Rattle.std.specs.Prelude.{◌≡◌, ℕ, Bool, MatchOption};
ghost use Rattle.memory.specs.Tickets.{ticket_count, AllOpenBelow, LowestUnopened};

/// What keeps requests open under tickets, in one list or in several.
pub trait Tickets {
    // Whether a ticket is open.
    ghost is_open: { Self → ℕ → Bool };

    /// Whether a request is open under this ticket.
    fn is_open(&self, ticket: u32) -> bool
        ensures { result ≡ is_open self.now ticket };
}

/// The lowest ticket that is not open, or nothing where all are open. Every number of 32 bits but the highest is a ticket.
pub fn unopened_ticket<T: Tickets>(tickets: &T) -> Option<u32>
    ensures { MatchOption result (AllOpenBelow (T.is_open tickets.now) ticket_count) (LowestUnopened (T.is_open tickets.now)) }
{
    (0..u32::MAX).find(|ticket| !tickets.is_open(*ticket))
}
