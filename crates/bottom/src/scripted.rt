//! The memory that answers as a script says.
ghost use Rattle.std.specs.Prelude.{◌≡◌};

use backing::backing::Backing;
use backing::script::Script;
use memory::bad_line::BadLine;
use memory::memory::Memory;
use memory::refusal::Refusal;
use memory::replies::Answer;
use memory::state::State;

/// The most requests that are open on a `Scripted`.
pub const MOST_OPEN: usize = 16;

/// A memory that has at most `MOST_OPEN` requests open, and answers in each step as the next byte of its script says.
#[derive(Drop)]
pub struct Scripted<'a> {
    backing: Backing<'a, MOST_OPEN>,
    script: Script,
}

impl<'a> Scripted<'a> {
    ghost use Rattle.backing.specs.Image.{lent_bytes};
    ghost use Rattle.bottom.specs.Scripted.{scripted_image, ScriptedBegins};
    ghost use Rattle.memory.specs.Gather.{facts};
    ghost use Rattle.memory.specs.Meaning.{Idle};

    /// A memory on this image with no request open. Its faults name the level; of the bad lines the first `MOST_BAD_LINES`
    /// pairs count, and of two for one line the first. Of the script the first `LONGEST_SCRIPT` bytes count, and a script that
    /// never answers counts as a single 1.
    pub fn new(image: &'a mut [u8], level: u8, bad_lines: &[BadLine], script: &[u8]) -> Scripted<'a>
        ensures image { lent_bytes (scripted_image result) ≡ image.entry }
        ensures begins { ScriptedBegins level bad_lines.now script.now result }
        ensures idle { Idle (facts ⟦<Scripted<'a> as State>⟧ result) }
    {
        Scripted {
            backing: Backing::new(image, level, bad_lines),
            script: Script::new(script),
        }
    }

    /// The image, given back.
    pub fn into_image(self) -> &'a mut [u8]
        ensures { result ≡ lent_bytes (scripted_image self.entry) }
    {
        self.backing.into_image()
    }
}

impl<'a> State for Scripted<'a> {
    ghost use Rattle.bottom.specs.Scripted.{scripted_facts};

    ghost lines = { λ s. (scripted_facts s).lines };

    ghost contents = { λ s. (scripted_facts s).contents };

    ghost bad = { λ s. (scripted_facts s).bad };

    ghost due = { λ s. (scripted_facts s).due };

    ghost owed = { λ s. (scripted_facts s).owed };

    ghost pace = { λ s. (scripted_facts s).pace };
}

impl<'a> Memory for Scripted<'a> {
    ghost use Rattle.bottom.specs.Scripted.{ScriptedReads, ScriptedWrites, ScriptedSteps};
    ghost use Rattle.bottom.specs.ScriptedLaws.{scripted_laws};

    ghost reads = { ScriptedReads };

    ghost writes = { ScriptedWrites };

    ghost steps = { ScriptedSteps };

    fn size(&self) -> u32 {
        self.backing.line_count()
    }

    fn read(&mut self, line: u32) -> Result<u32, Refusal> {
        self.backing.read(line)
    }

    fn write(&mut self, line: u32, mask: u16, new: [u8; 16]) -> Result<u32, Refusal> {
        self.backing.write(line, mask, new)
    }

    fn step(&mut self, buffer: &mut [u8; 16]) -> Option<Answer> {
        let index = self.script.step(self.backing.open_count())?;
        self.backing.answer(index, buffer)
    }

    ghost well = { scripted_laws.well };

    ghost reading = { scripted_laws.reading };

    ghost writing = { scripted_laws.writing };

    ghost stepping = { scripted_laws.stepping };
}
