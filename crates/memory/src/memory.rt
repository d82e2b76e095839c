//! The calls of a memory, and what they mean.
ghost use Rattle.std.specs.Prelude.{◌≡◌, ℕ, List, Option, Result};
ghost use Rattle.memory.specs.Gather.{facts};
ghost use Rattle.memory.specs.Meaning.{Well, ReadMeans, WriteMeans, StepMeans};
ghost use Rattle.memory.specs.declared.refusal.Refusal.{Refusal};
ghost use Rattle.memory.specs.declared.replies.Answer.{Answer};

use crate::refusal::Refusal;
use crate::replies::Answer;
use crate::state::State;

/// A memory takes requests and answers them later, in any order: each request that it takes is open under a ticket until
/// a step answers it.
///
/// Each kind of memory says exactly what its calls do, by the relations `reads`, `writes` and `steps` between the state
/// before, what is given and answered, and the state after. The laws say that each such move, between any two values of
/// the type, is what the same call means of any memory: what has to hold of a state for that is kept by its type.
pub trait Memory: State {
    // A read: the state before it, the line, what is answered, and the state after it.
    ghost reads: { Self → ℕ → Result ℕ Refusal → Self → Type 0 };

    // A write: the state before it, the line, the mask and the new bytes, what is answered, and the state after it.
    ghost writes: { Self → ℕ → ℕ → List ℕ → Result ℕ Refusal → Self → Type 0 };

    // A step: the state and the buffer before it, what is answered, and the state and the buffer after it.
    ghost steps: { Self → List ℕ → Option Answer → Self → List ℕ → Type 0 };

    /// How many lines there are.
    fn size(&self) -> u32
        ensures { result ≡ (facts Self.State self.now).lines };

    /// Asks for the bytes of a line. Answers the ticket of the request.
    fn read(&mut self, line: u32) -> Result<u32, Refusal>
        ensures { reads self.old line result self.new };

    /// Lays new bytes on a line, where the mask says. Answers the ticket of the request.
    fn write(&mut self, line: u32, mask: u16, new: [u8; 16]) -> Result<u32, Refusal>
        ensures { writes self.old line mask new result self.new };

    /// Goes on by one step, and may answer one open request. The bytes of a line that was read go into the buffer.
    fn step(&mut self, buffer: &mut [u8; 16]) -> Option<Answer>
        ensures { steps self.old buffer.old result self.new buffer.new };

    // What holds of every memory at all times.
    ghost well: { (s : Self) → Well (facts Self.State s) };

    // A read means what a read of any memory means.
    ghost reading: { (s t : Self) (line : ℕ) (r : Result ℕ Refusal) → reads s line r t → ReadMeans (facts Self.State s) line r (facts Self.State t) };

    // And so does a write.
    ghost writing: { (s t : Self) (line mask : ℕ) (new : List ℕ) (r : Result ℕ Refusal) → writes s line mask new r t → WriteMeans (facts Self.State s) line mask new r (facts Self.State t) };

    // And so does a step.
    ghost stepping: { (s t : Self) (before after : List ℕ) (r : Option Answer) → steps s before r t after → StepMeans (facts Self.State s) before r (facts Self.State t) after };
}
