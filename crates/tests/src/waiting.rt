//! What can be done with every memory, proved from what a memory means alone.
ghost use Rattle.memory.specs.Gather.{facts};
ghost use Rattle.tests.specs.Waiting.{Any, Made, Stepped, ReadThenSteps, ReadInSteps};

use memory::memory::Memory;
use memory::refusal::Refusal;
use memory::replies::Status;

/// Makes so many steps and drops what they answer. If they are as many as the memory owes, then nothing is open
/// afterwards.
pub fn make_steps<M: Memory>(memory: &mut M, count: u32)
    ensures steps { Made M.steps Any count memory.old memory.new }
    ensures meaning { Stepped (facts M.State memory.old) count (facts M.State memory.new) }
{
    let mut buffer = [0; 16];
    for _ in 0..count {
        let _ = memory.step(&mut buffer);
    }
}

/// Reads a line and makes steps until the read is answered, at most so many; what they answer to other requests is dropped.
/// As many steps as the memory owes and its pace are always enough.
pub fn read_in_steps<M: Memory>(
    memory: &mut M,
    line: u32,
    most: u32,
    buffer: &mut [u8; 16],
) -> Result<Option<Status>, Refusal>
    ensures steps { ReadThenSteps M.reads M.steps memory.old line most buffer.old result memory.new buffer.new }
    ensures meaning { ReadInSteps (facts M.State memory.old) line most buffer.old result (facts M.State memory.new) buffer.new }
{
    let ticket = memory.read(line)?;
    for _ in 0..most {
        let mut bytes = *buffer;
        if let Some(answer) = memory.step(&mut bytes) {
            if answer.ticket == ticket {
                *buffer = bytes;
                return Ok(Some(answer.status));
            }
        }
    }
    Ok(None)
}
