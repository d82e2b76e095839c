//! The memory that answers in order.
ghost use Rattle.std.specs.Prelude.{◌≡◌};

use backing::backing::Backing;
use backing::clock::Clock;
use memory::bad_line::BadLine;
use memory::memory::Memory;
use memory::refusal::Refusal;
use memory::replies::Answer;
use memory::state::State;

/// The most requests that are open on an `Ordered`.
pub const MOST_OPEN: usize = 4;

/// A memory that has at most `MOST_OPEN` requests open, and answers the oldest each time that it has made as many steps
/// with a request open as its latency.
#[derive(Drop)]
pub struct Ordered<'a> {
    backing: Backing<'a, MOST_OPEN>,
    clock: Clock,
}

impl<'a> Ordered<'a> {
    ghost use Rattle.backing.specs.Image.{lent_bytes};
    ghost use Rattle.bottom.specs.Ordered.{ordered_image, OrderedBegins};
    ghost use Rattle.memory.specs.Gather.{facts};
    ghost use Rattle.memory.specs.Meaning.{Idle};

    /// A memory on this image with no request open. Its faults name the level; of the bad lines the first `MOST_BAD_LINES`
    /// pairs count, and of two for one line the first. Of a latency that is not from 1 to `LONGEST_LATENCY` the nearer end is
    /// taken.
    pub fn new(image: &'a mut [u8], level: u8, bad_lines: &[BadLine], latency: u8) -> Ordered<'a>
        ensures image { lent_bytes (ordered_image result) ≡ image.entry }
        ensures begins { OrderedBegins level bad_lines.now latency result }
        ensures idle { Idle (facts ⟦<Ordered<'a> as State>⟧ result) }
    {
        Ordered {
            backing: Backing::new(image, level, bad_lines),
            clock: Clock::new(latency),
        }
    }

    /// The image, given back.
    pub fn into_image(self) -> &'a mut [u8]
        ensures { result ≡ lent_bytes (ordered_image self.entry) }
    {
        self.backing.into_image()
    }
}

impl<'a> State for Ordered<'a> {
    ghost use Rattle.bottom.specs.Ordered.{ordered_facts};

    ghost lines = { λ s. (ordered_facts s).lines };

    ghost contents = { λ s. (ordered_facts s).contents };

    ghost bad = { λ s. (ordered_facts s).bad };

    ghost due = { λ s. (ordered_facts s).due };

    ghost owed = { λ s. (ordered_facts s).owed };

    ghost pace = { λ s. (ordered_facts s).pace };
}

impl<'a> Memory for Ordered<'a> {
    ghost use Rattle.bottom.specs.Ordered.{OrderedReads, OrderedWrites, OrderedSteps};
    ghost use Rattle.bottom.specs.OrderedLaws.{ordered_laws};

    ghost reads = { OrderedReads };

    ghost writes = { OrderedWrites };

    ghost steps = { OrderedSteps };

    fn size(&self) -> u32 {
        self.backing.line_count()
    }

    fn read(&mut self, line: u32) -> Result<u32, Refusal> {
        self.backing.read(line)
    }

    fn write(&mut self, line: u32, mask: u16, new: [u8; 16]) -> Result<u32, Refusal> {
        self.backing.write(line, mask, new)
    }

    fn step(&mut self, buffer: &mut [u8; 16]) -> Option<Answer> {
        let index = self.clock.step(self.backing.open_count())?;
        self.backing.answer(index, buffer)
    }

    ghost well = { ordered_laws.well };

    ghost reading = { ordered_laws.reading };

    ghost writing = { ordered_laws.writing };

    ghost stepping = { ordered_laws.stepping };
}
