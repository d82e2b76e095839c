//! The tables of a level.
ghost use Rattle.std.specs.Prelude.{◌≡◌, ◌≤◌, ◌*◌, false, length, find, is_some, MatchOption, IfSome, Some};
ghost use Rattle.memory.specs.Tickets.{AllOpenBelow, ticket_count};
ghost use Rattle.list.specs.Keyed.{entry_of, altered};
ghost use Rattle.std.specs.List.{list_any};
ghost use Rattle.std.specs.Option.{option_copied, option_map};
ghost use Rattle.level_model.specs.Registers.{bytes_after, condition_after, dues, ticket_of, target_ticket, register_line, is_waiting};
ghost use Rattle.level_model.specs.Standing.{standing, condition_at};
ghost use Rattle.level_model.specs.Steps.{Taken, line_sent, fault_in, arrival, pushed_all, way_after, ended, received, next_line, oldest_queued, evicted, reserved, dequeued};
ghost use Rattle.level_model.specs.Tables.{empty_tables, at_rest, is_open, row_of, target_count, open_count, register_path, path, pushed, with_target, new_register, hit_on, Asked};
ghost use Rattle.level_model.specs.Ways.{way_at, holding, lowest_empty, unreserved};
ghost use Rattle.level_model.specs.Limits.{most_registers, most_targets, most_open};
ghost use Rattle.level_model.specs.declared.registers.Progress.TheVariants.{Sent};
ghost use Rattle.level_model.specs.declared.registers.Register.{Register};
ghost use Rattle.level_model.specs.declared.ways.Condition.TheVariants.{Clean};

use crate::registers::{Ask, Progress, QueuedLine, Ready, Register, Target};
use crate::standing::Standing;
use crate::ways::{CachedLine, Condition, Way, Ways};
use arrayvec::ArrayVec;
use list::keyed::{entry_of, find, take};
use memory::replies::{Answer, Fault, Status};
use memory::tickets::{Tickets, unopened_ticket};
use replacement::geometry::Geometry;

/// The most registers.
pub const MOST_REGISTERS: usize = 8;

/// The most lines in the write-back queue.
pub const MOST_QUEUED: usize = 4;

/// The most requests that are open on a level.
pub const MOST_OPEN: usize = 16;

/// What becomes of a request that there is room for.
#[derive(Clone, Copy, Debug)]
enum Path {
    /// This way holds the line, and answers it.
    Hit(usize),
    /// It is one more target of the line's register.
    Merge,
    /// A new register begins with it.
    Miss,
}

/// A line that came from below, and its fault, if it has one.
#[derive(Clone, Copy, PartialEq, Eq, Debug)]
pub struct Arrival {
    /// Its number.
    pub line: u32,
    /// The set that it belongs to.
    pub set: usize,
    /// The way of that set that is reserved for it.
    pub way: usize,
    /// Its fault, as the memory below told it.
    pub fault: Option<Fault>,
}

/// A line that is to be read below.
#[derive(Clone, Copy, PartialEq, Eq, Debug)]
pub struct Fetch {
    /// Its number.
    pub line: u32,
    /// The set that it belongs to.
    pub set: usize,
    /// The way of that set that is to be reserved for it.
    pub way: usize,
}

/// What a level holds.
#[derive(Drop)]
pub struct Tables {
    ways: Ways,
    registers: ArrayVec<Register, MOST_REGISTERS>,
    queue: ArrayVec<QueuedLine, MOST_QUEUED>,
    ready: ArrayVec<Ready, MOST_OPEN>,
}

// How many targets these registers have.
fn target_count(registers: &[Register]) -> usize
    ensures value { result ≡ target_count registers.now }
    ensures few { result ≤ most_targets * length registers.now }
{
    let mut count = 0;
    for register in registers {
        count += register.targets.len();
    }
    count
}

// Whether a request waits under this ticket.
fn is_target(registers: &[Register], ticket: u32) -> bool
    ensures { result ≡ list_any (λ (r : Register). is_some (entry_of target_ticket ticket r.targets.items)) registers.now }
{
    registers.iter().any(|register| register.has_target(ticket))
}

// The oldest register that waits.
fn oldest_waiting(registers: &[Register]) -> Option<&Register>
    ensures { option_copied result ≡ find (λ (r : Register). is_waiting r.progress) registers.now }
{
    registers
        .iter()
        .find(|register| register.progress.is_waiting())
}

// The fault that a status tells.
fn fault_in(status: Status) -> Option<Fault>
    ensures { result ≡ fault_in status }
{
    match status {
        Status::Fault(fault) => Some(fault),
        Status::Line | Status::Done => None,
    }
}

// What a way that was reserved for a line holds, once the line came with this fault, or as a good one with these bytes.
fn way_after(line: u32, fault: Option<Fault>, bytes: [u8; 16], condition: Condition) -> Way
    ensures { result ≡ way_after line fault bytes condition }
{
    match fault {
        Some(_) => Way::Empty,
        None => Way::Filled(CachedLine {
            line,
            bytes,
            condition,
        }),
    }
}

// Makes answers to these targets behind those that are ready, oldest first, as far as there is room: of a line that has this
// fault, or of a good one with these bytes before them. Answers the bytes after them, and whether the memory below holds these.
fn serve(
    targets: &[Target],
    fault: Option<Fault>,
    bytes: [u8; 16],
    ready: &mut ArrayVec<Ready, MOST_OPEN>,
) -> ([u8; 16], Condition)
    ensures value { result ≡ (bytes_after fault bytes targets.now, condition_after Clean targets.now) }
    ensures after { ready.new.items ≡ pushed_all most_open ready.old.items (dues fault bytes targets.now) }
{
    let mut bytes = bytes;
    let mut condition = Condition::Clean;
    for target in targets {
        let reply = target.ask.reply_to(fault, bytes);
        let _ = ready.try_push(Ready {
            ticket: target.ticket,
            reply,
        });
        // in two steps: in a loop the checker does not yet give an array what a call answers
        let laid = target.ask.bytes_asked(fault, bytes);
        bytes = laid;
        condition = target.ask.condition_asked(condition);
    }
    (bytes, condition)
}

/// A ticket is open while its answer is ready, or it is a target's.
impl Tickets for Tables {
    ghost use Rattle.level_model.specs.Tables.{is_open};

    ghost is_open = { is_open };

    fn is_open(&self, ticket: u32) -> bool {
        entry_of(self.ready.as_slice(), ticket).is_some()
            || is_target(self.registers.as_slice(), ticket)
    }
}

impl Tables {
    /// They hold nothing.
    pub fn new() -> Tables
        ensures { result ≡ empty_tables }
    {
        Tables {
            ways: Ways::new(),
            registers: ArrayVec::new(),
            queue: ArrayVec::new(),
            ready: ArrayVec::new(),
        }
    }

    // How many requests are open.
    fn open_count(&self) -> usize
        ensures { result ≡ open_count self.now }
    {
        self.ready.len() + target_count(self.registers.as_slice())
    }

    /// The lowest empty way among the first `ways` of a set, or none.
    pub fn lowest_empty(&self, set: usize, ways: usize) -> Option<usize>
        ensures { result ≡ lowest_empty ways (row_of self.now set) }
    {
        self.ways.lowest_empty(set, ways)
    }

    /// The ways of a set that are not reserved: bit w of the mask is way w.
    pub fn unreserved(&self, set: usize) -> u8
        ensures { result ≡ unreserved (row_of self.now set) }
    {
        self.ways.unreserved(set)
    }

    // What becomes of a request for a line that is in no way, if there is room for it.
    fn register_path(&self, line: u32) -> Option<Path>
        ensures { result ≡ register_path self.now line }
    {
        match entry_of(self.registers.as_slice(), line) {
            Some(register) if register.targets.is_full() => None,
            Some(_) => Some(Path::Merge),
            None if self.registers.is_full() => None,
            None => Some(Path::Miss),
        }
    }

    // What becomes of a request for a line of this set, if there is room for it.
    fn path(&self, set: usize, line: u32) -> Option<Path>
        ensures { result ≡ path self.now set line }
    {
        let path = match self.ways.holding(set, line) {
            Some(way) => Path::Hit(way),
            None => self.register_path(line)?,
        };
        // last, since it looks at every register
        if self.open_count() >= MOST_OPEN {
            return None;
        }
        Some(path)
    }

    // A way answers a request.
    fn hit(&mut self, set: usize, way: usize, ticket: u32, ask: Ask)
        ensures { self.new ≡ hit_on (way_at self.old.ways set way) self.old set way ticket ask }
    {
        if let Way::Filled(held) = self.ways.way(set, way) {
            let asked = CachedLine {
                line: held.line,
                bytes: ask.bytes_asked(None, held.bytes),
                condition: ask.condition_asked(held.condition),
            };
            self.ways.put(set, way, Way::Filled(asked));
            let reply = ask.reply_to(None, held.bytes);
            let _ = self.ready.try_push(Ready { ticket, reply });
        }
    }

    // One more target for the register of this line.
    fn merge(&mut self, line: u32, target: Target)
        ensures { self.new ≡ record self.old { registers = record { items = altered register_line line (with_target target) self.old.registers.items } } }
    {
        let Some(i) = find(self.registers.as_slice(), line) else {
            return;
        };
        let register = &mut self.registers.as_mut_slice()[i];
        let _ = register.targets.try_push(target);
    }

    // A new register for this line begins with this target.
    fn miss(&mut self, line: u32, target: Target)
        ensures { self.new ≡ record self.old { registers = record { items = pushed most_registers self.old.registers.items (new_register line target) } } }
    {
        let mut targets = ArrayVec::new();
        targets.push(target);
        let _ = self.registers.try_push(Register {
            line,
            targets,
            progress: Progress::Waiting,
        });
    }

    // A ticket that is not open, if one is left: the next one that is not behind the newest that is easily found, or else
    // the lowest.
    fn fresh_ticket(&self) -> Option<u32>
        ensures { MatchOption result (AllOpenBelow (is_open self.now) ticket_count) (λ ticket. is_open self.now ticket ≡ false) }
    {
        let answered = self.ready.last().map_or(0, |ready| ready.ticket);
        let awaited = self.registers.last().and_then(|r| r.targets.last());
        let newest = answered.max(awaited.map_or(0, |target| target.ticket));
        match (newest.wrapping_add(1)..u32::MAX).find(|ticket| !self.is_open(*ticket)) {
            Some(ticket) => Some(ticket),
            None => unopened_ticket(self),
        }
    }

    /// Takes a request for a line of this set, and answers its ticket and the way that holds the line, if one does; or nothing
    /// where there is no room for it.
    pub fn ask(&mut self, set: usize, line: u32, ask: Ask) -> Option<(u32, Option<usize>)>
        ensures asked { Asked self.old set line ask (option_map (λ taken. taken.0) result) self.new }
        ensures way { IfSome result (λ taken. taken.1 ≡ holding line (row_of self.old set)) }
    {
        let path = self.path(set, line)?;
        let ticket = self.fresh_ticket()?;
        match path {
            Path::Hit(way) => {
                self.hit(set, way, ticket, ask);
                Some((ticket, Some(way)))
            }
            Path::Merge => {
                self.merge(line, Target { ticket, ask });
                Some((ticket, None))
            }
            Path::Miss => {
                self.miss(line, Target { ticket, ask });
                Some((ticket, None))
            }
        }
    }

    /// Whether nothing is to be done: no answer is ready, no line awaited, and none queued.
    #[inline]
    pub fn is_at_rest(&self) -> bool
        ensures { result ≡ at_rest self.now }
    {
        self.ready.is_empty() && self.registers.is_empty() && self.queue.is_empty()
    }

    /// Takes the answer that has been ready longest, if one is.
    #[inline]
    pub fn take_ready(&mut self) -> Option<Ready>
        ensures { Taken self.old result self.new }
    {
        // in most steps none is
        if self.ready.is_empty() {
            return None;
        }
        self.take_first_ready()
    }

    // The same where one is.
    #[inline(never)]
    fn take_first_ready(&mut self) -> Option<Ready>
        ensures { Taken self.old result self.new }
    {
        self.ready.pop_at(0)
    }

    // The line whose register was sent under this ticket.
    fn line_sent(&self, ticket: u32) -> Option<u32>
        ensures { result ≡ line_sent ticket self.now.registers.items }
    {
        self.registers
            .iter()
            .find(|register| register.progress.is_sent_under(ticket))
            .map(|register| register.line)
    }

    /// What an answer of the memory below brings, if a register awaits it.
    pub fn arrival(&self, geometry: Geometry, answer: Option<Answer>) -> Option<Arrival>
        ensures { result ≡ arrival geometry self.now answer }
    {
        let answer = answer?;
        let line = self.line_sent(answer.ticket)?;
        let set = geometry.set_of(line);
        let way = self.ways.index_for(set, line)?;
        Some(Arrival {
            line,
            set,
            way,
            fault: fault_in(answer.status),
        })
    }

    /// Ends the register of a line that came from below: the way holds the line, or is empty where the line has a fault, and
    /// its targets' answers are ready, as far as there is room. Nothing changes where the line has no register.
    pub fn end_register(&mut self, arrival: Arrival, bytes: [u8; 16])
        ensures { self.new ≡ received (Some arrival) bytes self.old }
    {
        let Some(register) = entry_of(self.registers.as_slice(), arrival.line) else {
            return;
        };
        let targets = register.targets.as_slice();
        let (bytes, condition) = serve(targets, arrival.fault, bytes, &mut self.ready);
        let _ = take(&mut self.registers, arrival.line);
        let way = way_after(arrival.line, arrival.fault, bytes, condition);
        self.ways.put(arrival.set, arrival.way, way);
    }

    /// The line of the oldest register that waits, unless the queue is full or holds this line.
    pub fn next_line(&self) -> Option<u32>
        ensures { result ≡ next_line self.now }
    {
        let register = oldest_waiting(self.registers.as_slice())?;
        if self.queue.is_full() || entry_of(self.queue.as_slice(), register.line).is_some() {
            return None;
        }
        Some(register.line)
    }

    /// The line that has been in the queue longest, or none.
    pub fn oldest_queued(&self) -> Option<QueuedLine>
        ensures { result ≡ oldest_queued self.now }
    {
        self.queue.first().copied()
    }

    // A dirty line whose way is reserved for another joins the queue, if there is room.
    fn evict(&mut self, way: Way)
        ensures { self.new ≡ record self.old { queue = record { items = evicted way self.old.queue.items } } }
    {
        if let Way::Filled(held) = way {
            if held.condition == Condition::Dirty {
                let _ = self.queue.try_push(QueuedLine {
                    line: held.line,
                    bytes: held.bytes,
                });
            }
        }
    }

    // The register of this line was sent under this ticket of the memory below.
    fn mark_sent(&mut self, line: u32, ticket: u32)
        ensures { self.new ≡ record self.old { registers = record { items = altered register_line line (λ r. record r { progress = Sent ticket }) self.old.registers.items } } }
    {
        let Some(i) = find(self.registers.as_slice(), line) else {
            return;
        };
        let register = &mut self.registers.as_mut_slice()[i];
        register.progress = Progress::Sent(ticket);
    }

    /// Reserves the way for the line that was sent for under this ticket. What the way held is dropped; a dirty line joins the
    /// write-back queue, if there is room.
    pub fn reserve(&mut self, fetch: Fetch, ticket: u32)
        ensures { self.new ≡ reserved fetch ticket self.old }
    {
        let victim = self.ways.way(fetch.set, fetch.way);
        self.evict(victim);
        self.ways
            .put(fetch.set, fetch.way, Way::Reserved(fetch.line));
        self.mark_sent(fetch.line, ticket);
    }

    /// The line was written below: it leaves the queue.
    pub fn dequeue(&mut self, line: u32)
        ensures { self.new ≡ dequeued line self.old }
    {
        let _ = take(&mut self.queue, line);
    }

    /// Where a line of this set stands.
    pub fn standing(&self, set: usize, line: u32) -> Standing
        ensures { result ≡ standing self.now set line }
    {
        let way = self.ways.holding(set, line);
        let register = entry_of(self.registers.as_slice(), line);
        Standing {
            way,
            condition: self.condition(set, way),
            targets: register.map_or(0, |register| register.targets.len()),
            waits: register.is_some_and(|register| register.progress.is_waiting()),
            queued: entry_of(self.queue.as_slice(), line).is_some(),
        }
    }

    // Whether the memory below holds the bytes of a way of a set; clean without one.
    fn condition(&self, set: usize, way: Option<usize>) -> Condition
        ensures { result ≡ condition_at self.now set way }
    {
        let Some(way) = way else {
            return Condition::Clean;
        };
        match self.ways.way(set, way) {
            Way::Filled(held) => held.condition,
            Way::Empty | Way::Reserved(_) => Condition::Clean,
        }
    }
}
