//! A list of calls, made on a port that is opened for them.
ghost use Rattle.port.specs.Run.{Ran};

use crate::event::{Call, Event};
use crate::port::Port;
use memory::memory::Memory;

/// A call, with room for what becomes of it.
#[derive(Clone, Copy, PartialEq, Eq, Debug)]
pub struct Entry {
    /// The call that is to be made.
    pub call: Call,
    /// What became of it, once it was made.
    pub event: Option<Event>,
}

/// Opens a port on this memory with this ration, makes the calls in their order, and writes beside each what became of it. Gives
/// the memory back.
pub fn run<M: Memory + Drop>(memory: M, ration: u32, entries: &mut [Entry]) -> M
    ensures { Ran M.State M.Memory.own memory ration entries.old entries.new result }
{
    let mut port = Port::new(memory, ration);
    for entry in entries.iter_mut() {
        entry.event = Some(port.make(entry.call));
    }
    port.into_below()
}
