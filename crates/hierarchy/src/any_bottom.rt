//! A memory at the bottom that is chosen when the program runs.
ghost use Rattle.std.specs.Prelude.{◌≡◌};

use bottom::ordered::Ordered;
use bottom::scripted::Scripted;
use memory::memory::Memory;
use memory::refusal::Refusal;
use memory::replies::Answer;
use memory::state::State;

/// A memory that answers in order, or one that answers as a script says.
#[derive(Drop)]
pub enum AnyBottom<'a> {
    Ordered(Ordered<'a>),
    Scripted(Scripted<'a>),
}

impl<'a> AnyBottom<'a> {
    ghost use Rattle.backing.specs.Image.{lent_bytes};
    ghost use Rattle.hierarchy.specs.AnyBottom.{bottom_image};

    /// The image, given back.
    pub fn into_image(self) -> &'a mut [u8]
        ensures { result ≡ lent_bytes (bottom_image self.entry) }
    {
        match self {
            AnyBottom::Ordered(memory) => memory.into_image(),
            AnyBottom::Scripted(memory) => memory.into_image(),
        }
    }
}

impl<'a> State for AnyBottom<'a> {
    ghost use Rattle.hierarchy.specs.AnyBottom.{bottom_facts};

    ghost lines = { λ s. (bottom_facts s).lines };

    ghost contents = { λ s. (bottom_facts s).contents };

    ghost bad = { λ s. (bottom_facts s).bad };

    ghost due = { λ s. (bottom_facts s).due };

    ghost owed = { λ s. (bottom_facts s).owed };

    ghost pace = { λ s. (bottom_facts s).pace };
}

/// It is the memory that was chosen.
impl<'a> Memory for AnyBottom<'a> {
    ghost use Rattle.hierarchy.specs.AnyBottom.{BottomReads, BottomWrites, BottomSteps};
    ghost use Rattle.hierarchy.specs.AnyBottomLaws.{bottom_laws};

    ghost reads = { BottomReads };

    ghost writes = { BottomWrites };

    ghost steps = { BottomSteps };

    fn size(&self) -> u32 {
        match self {
            AnyBottom::Ordered(memory) => memory.size(),
            AnyBottom::Scripted(memory) => memory.size(),
        }
    }

    fn read(&mut self, line: u32) -> Result<u32, Refusal> {
        match self {
            AnyBottom::Ordered(memory) => memory.read(line),
            AnyBottom::Scripted(memory) => memory.read(line),
        }
    }

    fn write(&mut self, line: u32, mask: u16, new: [u8; 16]) -> Result<u32, Refusal> {
        match self {
            AnyBottom::Ordered(memory) => memory.write(line, mask, new),
            AnyBottom::Scripted(memory) => memory.write(line, mask, new),
        }
    }

    fn step(&mut self, buffer: &mut [u8; 16]) -> Option<Answer> {
        match self {
            AnyBottom::Ordered(memory) => memory.step(buffer),
            AnyBottom::Scripted(memory) => memory.step(buffer),
        }
    }

    ghost well = { bottom_laws.well };

    ghost reading = { bottom_laws.reading };

    ghost writing = { bottom_laws.writing };

    ghost stepping = { bottom_laws.stepping };
}
