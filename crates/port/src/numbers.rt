//! The numbers that a port gives to requests, and those that are out.
ghost use Rattle.std.specs.Prelude.{◌≡◌, ◌+◌, ◌-◌, length, None, Some, slice_get};
ghost use Rattle.list.specs.Keyed.{altered};
ghost use Rattle.port.specs.Numbers.{answered, answered_number, held, new_numbers, number_for, out_number, refusal_of, Redeems, with_given};

use crate::answer::{Asked, Redeemed};
use crate::limits::{LARGEST_RATION, MOST_OUT};
use crate::refusal::{Refusal, Unredeemed};
use arrayvec::ArrayVec;
use list::keyed::{Keyed, entry_of, find, take};
use memory::replies::{Answer, Status};

/// A number that is out: the ticket of its request in the hierarchy, what was asked, and the answer once it has come.
#[derive(Clone, Copy, Default)]
pub(crate) struct NumberOut {
    pub(crate) number: u32,
    pub(crate) ticket: u32,
    pub(crate) asked: Asked,
    pub(crate) answer: Option<Redeemed>,
}

/// A number that is out has itself as its key.
impl Keyed for NumberOut {
    ghost key = { λ x. x.number };

    fn key_of(&self) -> u32 {
        self.number
    }
}

/// The ration, how many numbers were given, those that are out, in the order in which they were given, and those of them whose
/// answers have come, in the order in which they came.
#[derive(Drop)]
pub(crate) struct Numbers {
    ration: u32,
    given: u32,
    out: ArrayVec<NumberOut, MOST_OUT>,
    come: ArrayVec<u32, MOST_OUT>,
}

impl Numbers {
    /// No number was given. A ration that is not from 1 to 1,000,000 is replaced by the nearer of these.
    pub(crate) fn new(ration: u32) -> Numbers
        ensures { result ≡ new_numbers ration }
    {
        Numbers {
            ration: ration.clamp(1, LARGEST_RATION),
            given: 0,
            out: ArrayVec::new(),
            come: ArrayVec::new(),
        }
    }

    /// Why no number can be given, if none can.
    pub(crate) fn refusal(&self) -> Option<Refusal>
        ensures { result ≡ refusal_of self.now }
    {
        if self.given >= self.ration {
            return Some(Refusal::RationUsed);
        }
        if self.out.is_full() {
            return Some(Refusal::TooManyOut);
        }
        None
    }

    /// Gives the next number to what is asked under this ticket.
    pub(crate) fn give(&mut self, ticket: u32, asked: Asked) -> u32
        requires { refusal_of self.old ≡ None }
        ensures number { result ≡ self.old.given + 1 }
        ensures after { self.new ≡ with_given ticket asked self.old }
    {
        self.given += 1;
        // there is room, since the numbers out were counted before
        let _ = self.out.try_push(NumberOut {
            number: self.given,
            ticket,
            asked,
            answer: None,
        });
        self.given
    }

    // The number that waits for the answer under this ticket.
    fn number_for(&self, ticket: u32) -> Option<u32>
        ensures { result ≡ number_for ticket self.now.out.items }
    {
        let out = self
            .out
            .iter()
            .find(|out| out.answer.is_none() && out.ticket == ticket)?;
        Some(out.number)
    }

    // Puts the answer beside its number.
    fn put_answer(&mut self, number: u32, status: Status, line: [u8; 16])
        ensures { self.new ≡ record self.old { out = record { items = altered out_number number (answered status line) self.old.out.items } } }
    {
        let Some(i) = find(self.out.as_slice(), number) else {
            return;
        };
        let out = &mut self.out.as_mut_slice()[i];
        out.answer = Some(out.asked.answer_to(status, line));
    }

    /// Holds an answer of the hierarchy for its number, and tells which number that is. The answer to no number is dropped.
    #[inline]
    pub(crate) fn hold(&mut self, answer: Option<Answer>, line: [u8; 16]) -> Option<u32>
        ensures number { result ≡ answered_number answer self.old }
        ensures after { self.new ≡ held answer line self.old }
    {
        // most steps bring no answer
        self.hold_answer(answer?, line)
    }

    // The same for a step that brings one. It stays a call, so that one that brings none does not pay for its frame.
    #[inline(never)]
    fn hold_answer(&mut self, answer: Answer, line: [u8; 16]) -> Option<u32>
        ensures number { result ≡ answered_number (Some answer) self.old }
        ensures after { self.new ≡ held (Some answer) line self.old }
    {
        let number = self.number_for(answer.ticket)?;
        self.put_answer(number, answer.status, line);
        // there is room, since no more answers have come than numbers are out
        let _ = self.come.try_push(number);
        Some(number)
    }

    /// Gives the answer to a number, which is then no longer out.
    pub(crate) fn redeem(&mut self, number: u32) -> Result<Redeemed, Unredeemed>
        ensures { Redeems number self.old result self.new }
    {
        let out = *entry_of(self.out.as_slice(), number).ok_or(Unredeemed::NotOut)?;
        let answer = out.answer.ok_or(Unredeemed::NotCome)?;
        // both tables have it
        let _ = take(&mut self.out, number);
        let _ = take(&mut self.come, number);
        Ok(answer)
    }

    /// The number whose answer came first, of those that are out.
    pub(crate) fn first_come(&self) -> Option<u32>
        ensures { result ≡ slice_get self.now.come.items 0 }
    {
        self.come.first().copied()
    }

    /// How many more numbers can be given.
    pub(crate) fn ration_left(&self) -> u32
        ensures { result ≡ self.now.ration - self.now.given }
    {
        self.ration.saturating_sub(self.given)
    }

    /// How many numbers are out.
    pub(crate) fn out_count(&self) -> usize
        ensures { result ≡ length self.now.out.items }
    {
        self.out.len()
    }
}
