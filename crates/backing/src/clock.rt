//! The clock of a memory that answers in order.
ghost use Rattle.std.specs.Prelude.{◌≡◌, ◌<◌};

use memory::limits::LONGEST_LATENCY;

/// Counts the steps in which a request is open up to a latency, and then begins again.
#[derive(Clone, Copy)]
pub struct Clock {
    latency: u8,
    counter: u8,
    ghost within: { counter < latency },
}

impl Clock {
    ghost use Rattle.backing.specs.Clock.{latency_of, counter_of, counted_latency, clock_answers, ClockSteps};

    /// A clock at 0. Of a latency that is not from 1 to `LONGEST_LATENCY` the nearer end is taken.
    pub fn new(latency: u8) -> Clock
        ensures latency { latency_of result ≡ counted_latency latency }
        ensures counter { counter_of result ≡ 0 }
    {
        Clock {
            latency: latency.clamp(1, LONGEST_LATENCY),
            counter: 0,
        }
    }

    /// Makes a step while so many requests are open, and tells which of them, oldest first, is answered in it, if one is.
    pub fn step(&mut self, open_count: usize) -> Option<usize>
        ensures answers { result ≡ clock_answers self.old open_count }
        ensures after { ClockSteps self.old open_count self.new }
    {
        if open_count == 0 {
            return None;
        }
        let next = self.counter + 1;
        if next < self.latency {
            self.counter = next;
            return None;
        }
        self.counter = 0;
        Some(0)
    }
}
