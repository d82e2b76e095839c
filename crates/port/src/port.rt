//! A port for loads and stores over any memory.
ghost use Rattle.std.specs.Prelude.{◌≡◌, []};
ghost use Rattle.port.specs.Moves.{Loads, Stores, Steps};
ghost use Rattle.port.specs.declared.event.Event.TheVariants.{Load, Store, Step, Redeem, Come, Size, RationLeft, OutCount};
ghost use Rattle.port.specs.Events.{call_of};

use crate::answer::{Asked, Redeemed};
use crate::event::{Call, Event};
use crate::numbers::Numbers;
use crate::refusal::{Refusal, Unredeemed};
use crate::request::{load_span, store_span};
use line::LINE_SIZE;
use memory::memory::Memory;

/// A port on a hierarchy. An accepted load or store gets the next number, from 1, and is answered in some later step; the number is
/// then redeemed for the value, "done", or the fault of a bad line.
#[derive(Drop)]
pub struct Port<M: Memory> {
    below: M,
    numbers: Numbers,
}

impl<M: Memory> Port<M> {
    ghost use Rattle.port.specs.Port.{port_below, CameBy, Keeps, PortMoves};

    /// A port on this memory, with a ration of requests from 1 to 1,000,000; one outside is replaced by the nearer of these. No event
    /// was made on it. Answers to what is open on the memory are dropped; the promise is about a memory that is idle.
    pub fn new(below: M, ration: u32) -> Port<M>
        ensures { CameBy M.State M.Memory.own below ration [] result }
    {
        Port {
            below,
            numbers: Numbers::new(ration),
        }
    }

    /// The memory, given back. Answers to numbers that are out are lost.
    pub fn into_below(self) -> M
        ensures { result ≡ port_below self }
    {
        self.below
    }

    // One read of the line of a load.
    fn ask_load(&mut self, size: u8, address: u32) -> Result<u32, Refusal>
        ensures { Loads M.State M.Memory.own self.old.below self.old.numbers size address result self.new.below self.new.numbers }
    {
        let span = load_span(self.below.size(), size, address).map_err(Refusal::Unlawful)?;
        if let Some(refusal) = self.numbers.refusal() {
            return Err(refusal);
        }
        // the line is there, so that the memory can only be busy
        let ticket = self.below.read(span.line).map_err(|_| Refusal::Busy)?;
        Ok(self.numbers.give(ticket, Asked::Load(span)))
    }

    // One write to the line of a store.
    fn ask_store(&mut self, size: u8, address: u32, value: u64) -> Result<u32, Refusal>
        ensures { Stores M.State M.Memory.own self.old.below self.old.numbers size address value result self.new.below self.new.numbers }
    {
        let span = store_span(self.below.size(), size, address, value).map_err(Refusal::Unlawful)?;
        if let Some(refusal) = self.numbers.refusal() {
            return Err(refusal);
        }
        // the line is there, so that the memory can only be busy
        let written = self.below.write(span.line, span.mask(), span.bytes(value));
        let ticket = written.map_err(|_| Refusal::Busy)?;
        Ok(self.numbers.give(ticket, Asked::Store))
    }

    // One step of the memory.
    fn advance(&mut self) -> Option<u32>
        ensures { Steps M.State M.Memory.own self.old.below self.old.numbers result self.new.below self.new.numbers }
    {
        let mut buffer = [0; LINE_SIZE];
        let answer = self.below.step(&mut buffer);
        self.numbers.hold(answer, buffer)
    }

    /// Asks for the value of 1, 2, 4 or 8 bytes from an address up, which is a multiple of that size. Answers the number of the
    /// request. Refused, by the first that applies, where size, address or range is not lawful, the ration is used, sixteen numbers
    /// are out, or the hierarchy is busy.
    pub fn load(&mut self, size: u8, address: u32) -> Result<u32, Refusal>
        ensures moves { PortMoves M.State M.Memory.own (Load size address result) self.old self.new }
        ensures promise { Keeps M.State M.Memory.own (Load size address result) self.old self.new }
    {
        self.ask_load(size, address)
    }

    /// Puts a value of 1, 2, 4 or 8 bytes, the lowest first, from an address up, which is a multiple of that size. Answers the number
    /// of the request. Refused as a load is; where the range is lawful and the value needs more bytes than its size, for that.
    pub fn store(&mut self, size: u8, address: u32, value: u64) -> Result<u32, Refusal>
        ensures moves { PortMoves M.State M.Memory.own (Store size address value result) self.old self.new }
        ensures promise { Keeps M.State M.Memory.own (Store size address value result) self.old self.new }
    {
        self.ask_store(size, address, value)
    }

    /// Makes one step of the hierarchy. Answers the number whose answer it brings, if it brings one.
    pub fn step(&mut self) -> Option<u32>
        ensures moves { PortMoves M.State M.Memory.own (Step result) self.old self.new }
        ensures promise { Keeps M.State M.Memory.own (Step result) self.old self.new }
    {
        self.advance()
    }

    /// Redeems a number for the value of its load, for "done", or for the fault of a bad line. The number is then no longer out.
    /// Refused where it is not out, or its answer has not come.
    pub fn redeem(&mut self, number: u32) -> Result<Redeemed, Unredeemed>
        ensures moves { PortMoves M.State M.Memory.own (Redeem number result) self.old self.new }
        ensures promise { Keeps M.State M.Memory.own (Redeem number result) self.old self.new }
    {
        self.numbers.redeem(number)
    }

    /// The number whose answer came first, of those that are out and can be redeemed.
    pub fn come(&self) -> Option<u32>
        ensures moves { PortMoves M.State M.Memory.own (Come result) self.now self.now }
        ensures promise { Keeps M.State M.Memory.own (Come result) self.now self.now }
    {
        self.numbers.first_come()
    }

    /// How many lines the hierarchy has.
    pub fn size(&self) -> u32
        ensures moves { PortMoves M.State M.Memory.own (Size result) self.now self.now }
        ensures promise { Keeps M.State M.Memory.own (Size result) self.now self.now }
    {
        self.below.size()
    }

    /// How many more requests can be accepted.
    pub fn ration_left(&self) -> u32
        ensures moves { PortMoves M.State M.Memory.own (RationLeft result) self.now self.now }
        ensures promise { Keeps M.State M.Memory.own (RationLeft result) self.now self.now }
    {
        self.numbers.ration_left()
    }

    /// How many numbers are out.
    pub fn out_count(&self) -> usize
        ensures moves { PortMoves M.State M.Memory.own (OutCount result) self.now self.now }
        ensures promise { Keeps M.State M.Memory.own (OutCount result) self.now self.now }
    {
        self.numbers.out_count()
    }

    /// Makes a call, and answers it with its outcome.
    pub fn make(&mut self, call: Call) -> Event
        ensures call { call_of result ≡ call }
        ensures moves { PortMoves M.State M.Memory.own result self.old self.new }
        ensures promise { Keeps M.State M.Memory.own result self.old self.new }
    {
        match call {
            Call::Load { size, address } => Event::Load {
                size,
                address,
                outcome: self.load(size, address),
            },
            Call::Store {
                size,
                address,
                value,
            } => Event::Store {
                size,
                address,
                value,
                outcome: self.store(size, address, value),
            },
            Call::Step => Event::Step {
                outcome: self.step(),
            },
            Call::Redeem { number } => Event::Redeem {
                number,
                outcome: self.redeem(number),
            },
            Call::Come => Event::Come {
                outcome: self.come(),
            },
            Call::Size => Event::Size {
                outcome: self.size(),
            },
            Call::RationLeft => Event::RationLeft {
                outcome: self.ration_left(),
            },
            Call::OutCount => Event::OutCount {
                outcome: self.out_count(),
            },
        }
    }
}
