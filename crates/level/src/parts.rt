//! The parts of a level, and what its calls make of them.
ghost use Rattle.std.specs.Prelude.{◌≡◌};
ghost use Rattle.level_model.specs.Moves.{Asks, Steps, RuleFilled, Sends, WritesBack, arrived};
ghost use Rattle.level_model.specs.Steps.{choice, fetch, received, oldest_queued};
ghost use Rattle.level.specs.Parts.{standing_in};
ghost use Rattle.memory.specs.Gather.{facts};

use level_model::registers::Ask;
use level_model::standing::Standing;
use level_model::tables::{Fetch, Tables};
use line::LINE_SIZE;
use memory::memory::Memory;
use memory::refusal::Refusal;
use memory::replies::Answer;
use memory::state::State;
use replacement::rule::Replacement;

/// A memory, a replacement rule, and the tables of a level that stands on them.
#[derive(Drop)]
pub(crate) struct Parts<M, R> {
    pub(crate) below: M,
    pub(crate) rule: R,
    pub(crate) tables: Tables,
}

impl<M: Memory, R: Replacement> Parts<M, R> {
    // Takes a request. Answers its ticket.
    pub(crate) fn ask(&mut self, line: u32, ask: Ask) -> Result<u32, Refusal>
        ensures below { self.new.below ≡ self.old.below }
        ensures asks { Asks R.Replacement (facts M.State self.old.below).lines self.old.tables self.old.rule line ask result self.new.tables self.new.rule }
    {
        if line >= self.below.size() {
            return Err(Refusal::NoLine);
        }
        let set = self.rule.geometry().set_of(line);
        let (ticket, way) = self.tables.ask(set, line, ask).ok_or(Refusal::Busy)?;
        if let Some(way) = way {
            self.rule.used(set, way);
        }
        Ok(ticket)
    }

    // Takes what the memory below answered in a step.
    fn receive(&mut self, answer: Option<Answer>, bytes: [u8; 16])
        ensures below { self.new.below ≡ self.old.below }
        ensures rule { RuleFilled R.Replacement (arrived R.Replacement self.old.rule self.old.tables answer) self.old.rule self.new.rule }
        ensures tables { self.new.tables ≡ received (arrived R.Replacement self.old.rule self.old.tables answer) bytes self.old.tables }
    {
        // most steps bring no answer
        if answer.is_none() {
            return;
        }
        let geometry = self.rule.geometry();
        let Some(arrival) = self.tables.arrival(geometry, answer) else {
            return;
        };
        if arrival.fault.is_none() {
            self.rule.filled(arrival.set, arrival.way);
        }
        self.tables.end_register(arrival, bytes);
    }

    // The way of a set that is reserved next.
    fn choice(&self, set: usize) -> Option<usize>
        ensures { result ≡ choice (R.geometry self.now.rule) (R.order self.now.rule) self.now.tables set }
    {
        let ways = self.rule.geometry().ways;
        match self.tables.lowest_empty(set, ways) {
            Some(way) => Some(way),
            None => self.rule.pick(set, self.tables.unreserved(set)),
        }
    }

    // The read that is made below next.
    fn fetch(&self) -> Option<Fetch>
        ensures { result ≡ fetch (R.geometry self.now.rule) (R.order self.now.rule) self.now.tables }
    {
        let line = self.tables.next_line()?;
        let set = self.rule.geometry().set_of(line);
        let way = self.choice(set)?;
        Some(Fetch { line, set, way })
    }

    // Makes at most one request below.
    fn send(&mut self)
        ensures rule { self.new.rule ≡ self.old.rule }
        ensures sends { Sends M.Memory.own R.Replacement self.old.rule self.old.below self.old.tables self.new.below self.new.tables }
    {
        if let Some(fetch) = self.fetch() {
            if let Ok(ticket) = self.below.read(fetch.line) {
                self.tables.reserve(fetch, ticket);
            }
        } else {
            self.write_back();
        }
    }

    // Writes the oldest queued line below, if there is one.
    fn write_back(&mut self)
        ensures rule { self.new.rule ≡ self.old.rule }
        ensures writes { WritesBack M.Memory.own (oldest_queued self.old.tables) self.old.below self.old.tables self.new.below self.new.tables }
    {
        let Some(queued) = self.tables.oldest_queued() else {
            return;
        };
        let written = self.below.write(queued.line, u16::MAX, queued.bytes);
        if written.is_ok() {
            self.tables.dequeue(queued.line);
        }
    }

    // Makes one step below, and answers what has been ready longest.
    pub(crate) fn step(&mut self, buffer: &mut [u8; 16]) -> Option<Answer>
        ensures { Steps R.Replacement M.Memory.own self.old.below self.old.tables self.old.rule buffer.old result self.new.below self.new.tables self.new.rule buffer.new }
    {
        if self.tables.is_at_rest() {
            // what is answered below belongs to no register
            let mut bytes = [0; LINE_SIZE];
            let _ = self.below.step(&mut bytes);
            return None;
        }
        self.step_at_work(buffer)
    }

    // The same, whatever the tables hold. It stays a call, so that a step at rest does not pay for its frame.
    #[inline(never)]
    fn step_at_work(&mut self, buffer: &mut [u8; 16]) -> Option<Answer>
        ensures { Steps R.Replacement M.Memory.own self.old.below self.old.tables self.old.rule buffer.old result self.new.below self.new.tables self.new.rule buffer.new }
    {
        let ready = self.tables.take_ready();
        let mut bytes = [0; LINE_SIZE];
        let answer = self.below.step(&mut bytes);
        self.receive(answer, bytes);
        self.send();
        let ready = ready?;
        Some(Answer {
            ticket: ready.ticket,
            status: ready.reply.deliver(buffer),
        })
    }

    // Where a line stands.
    pub(crate) fn standing(&self, line: u32) -> Standing
        ensures { result ≡ standing_in R.Replacement (facts M.State self.now.below).lines self.now.rule self.now.tables line }
    {
        if line >= self.below.size() {
            return Standing::nowhere();
        }
        self.tables
            .standing(self.rule.geometry().set_of(line), line)
    }
}
