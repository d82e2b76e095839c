//! The record at an offset of a trace.
ghost use Rattle.std.specs.Prelude.{◌≡◌, ◌≤◌, true, false, ◌++◌, length, drop, Some, IfOk, ◌==◌};
ghost use Rattle.trace.specs.Decode.{fields, record_of, decode};
ghost use Rattle.trace.specs.Encode.{encode, in_limits};
ghost use Rattle.trace.specs.Filled.{seen, seen_later, fields_onto, record_onto};
ghost use Rattle.trace.specs.Items.{item_of};
ghost use Rattle.trace.specs.Notes.{NotedRead, NotedLaterRead};

use crate::fields::{read_bad_lines, read_bottom, read_levels, read_text, read_within};
use crate::limits::{HIGHEST_ADDRESS, LARGEST_SIZE, LONGEST_NOTE, MOST_STEPS};
use crate::numbers::read_number;
use crate::records::{Kind, Record, Setup, SetupBuffer};
use crate::refusal::Refusal;
use memory::limits::{MOST_BAD_LINES, MOST_LINES};

// A record, the caller's buffer after it, and the bytes behind it.
pub(crate) type Read<'a> = Result<((Record<'a>, SetupBuffer), &'a [u8]), Refusal>;

// A record behind the first one, which has nothing to do with that buffer, and the bytes behind it.
pub(crate) type Later<'a> = Result<(Record<'a>, &'a [u8]), Refusal>;

// What is left of a trace that is `end` bytes long.
#[derive(Clone, Copy)]
struct Tail<'a> {
    bytes: &'a [u8],
    end: usize,
    ghost within: { length bytes.now ≤ end },
}

// Each of these functions says by a clause where a note's text lies: a record does not know how long its trace is, and to prove that the
// other kinds have no text is longer than the clause.
impl<'a> Tail<'a> {
    fn read_setup(self, buffer: SetupBuffer) -> Read<'a>
        ensures value { seen result ≡ fields_onto buffer Kind.Setup self.entry.bytes.now }
        ensures noted { NotedRead self.entry.end result }
    {
        let (lines, rest) = read_within(self.bytes, 1, u64::from(MOST_LINES))?;
        let ((bottom, script), rest) = read_bottom(rest, buffer.script)?;
        let (count, rest) = read_within(rest, 0, MOST_BAD_LINES as u64)?;
        let (bad_lines, rest) = read_bad_lines(rest, count as usize, buffer.bad_lines)?;
        let ((lowest, upper), rest) = read_levels(rest)?;
        let setup = Setup {
            lines: lines as u32,
            bottom,
            bad_line_count: count as u8,
            lowest,
            upper,
        };
        let filled = SetupBuffer { script, bad_lines };
        Ok(((Record::Setup(setup), filled), rest))
    }

    fn read_load(self) -> Later<'a>
        ensures value { (b : SetupBuffer) → seen_later b result ≡ fields Kind.Load self.entry.bytes.now }
        ensures noted { NotedLaterRead self.entry.end result }
    {
        let (size, rest) = read_within(self.bytes, 0, u64::from(LARGEST_SIZE))?;
        let (address, rest) = read_within(rest, 0, u64::from(HIGHEST_ADDRESS))?;
        let size = size as u8;
        let address = address as u32;
        Ok((Record::Load { size, address }, rest))
    }

    fn read_store(self) -> Later<'a>
        ensures value { (b : SetupBuffer) → seen_later b result ≡ fields Kind.Store self.entry.bytes.now }
        ensures noted { NotedLaterRead self.entry.end result }
    {
        let (size, rest) = read_within(self.bytes, 0, u64::from(LARGEST_SIZE))?;
        let (address, rest) = read_within(rest, 0, u64::from(HIGHEST_ADDRESS))?;
        let (value, rest) = read_number(rest)?;
        let size = size as u8;
        let address = address as u32;
        let store = Record::Store {
            size,
            address,
            value,
        };
        Ok((store, rest))
    }

    fn read_pass(self) -> Later<'a>
        ensures value { (b : SetupBuffer) → seen_later b result ≡ fields Kind.Pass self.entry.bytes.now }
        ensures noted { NotedLaterRead self.entry.end result }
    {
        let (steps, rest) = read_within(self.bytes, 1, u64::from(MOST_STEPS))?;
        let steps = steps as u16;
        Ok((Record::Pass { steps }, rest))
    }

    // The offset of a note's text is counted from the trace's front.
    fn read_note(self) -> Later<'a>
        ensures value { (b : SetupBuffer) → seen_later b result ≡ fields Kind.Note self.entry.bytes.now }
        ensures noted { NotedLaterRead self.entry.end result }
    {
        let (count, rest) = read_within(self.bytes, 0, LONGEST_NOTE as u64)?;
        let (text, rest) = read_text(rest, count as usize)?;
        let note = Record::Note {
            text,
            offset: self.end - rest.len() - text.len(),
        };
        Ok((note, rest))
    }

    // The fields of a later record of that kind, which is no setup.
    fn read_later_fields(self, kind: Kind) -> Later<'a>
        ensures value { (b : SetupBuffer) → seen_later b result ≡ record_of false (Some kind) self.entry.bytes.now }
        ensures noted { NotedLaterRead self.entry.end result }
    {
        match kind {
            Kind::Setup => Err(Refusal::Misplaced),
            Kind::Load => self.read_load(),
            Kind::Store => self.read_store(),
            Kind::Pass => self.read_pass(),
            Kind::Note => self.read_note(),
        }
    }

    // The later record at the front: its kind is checked, then its fields.
    fn read_later_front(self) -> Later<'a>
        ensures value { (b : SetupBuffer) → seen_later b result ≡ decode false self.entry.bytes.now }
        ensures noted { NotedLaterRead self.entry.end result }
    {
        let [number, bytes @ ..] = self.bytes else {
            return Err(Refusal::Truncated);
        };
        let kind = Kind::try_from(*number)?;
        let fields = Tail {
            bytes,
            end: self.end,
        };
        fields.read_later_fields(kind)
    }

    // The first record at the front: its kind is checked, then its fields.
    fn read_first_front(self, buffer: SetupBuffer) -> Read<'a>
        ensures value { seen result ≡ record_onto buffer true self.entry.bytes.now }
        ensures noted { NotedRead self.entry.end result }
    {
        let [number, bytes @ ..] = self.bytes else {
            return Err(Refusal::Truncated);
        };
        if Kind::try_from(*number)? != Kind::Setup {
            return Err(Refusal::Misplaced);
        }
        let fields = Tail {
            bytes,
            end: self.end,
        };
        fields.read_setup(buffer)
    }

    // The record at the front: a first one is a setup, which goes into the buffer; a later one leaves the buffer as it is.
    fn read_front(self, first: bool, buffer: SetupBuffer) -> Read<'a>
        ensures value { seen result ≡ record_onto buffer first self.entry.bytes.now }
        ensures noted { NotedRead self.entry.end result }
    {
        if first {
            return self.read_first_front(buffer);
        }
        let (record, rest) = self.read_later_front()?;
        Ok(((record, buffer), rest))
    }
}

/// The record behind the first one that begins at an offset, and the bytes behind it. A setup is misplaced there.
pub(crate) fn read_later_record(trace: &[u8], at: usize) -> Later<'_>
    ensures value { (b : SetupBuffer) → seen_later b result ≡ decode false (drop at trace.now) }
    ensures noted { NotedLaterRead (length trace.now) result }
    ensures inside { IfOk result (λ s. length s.1.now ≤ length trace.now) }
{
    let bytes = trace.get(at..).ok_or(Refusal::Truncated)?;
    let end = trace.len();
    Tail { bytes, end }.read_later_front()
}

/// The record that begins at an offset, the caller's buffer after it, and the bytes behind it.
/// At offset 0 a setup is due, and nowhere else; at the trace's end and past it there is nothing (`Truncated`).
/// The kind is checked first, then that it is due there (`Misplaced`), then field by field.
/// A record that was read is written as the bytes that it was read from.
pub fn read_record(trace: &[u8], at: usize, buffer: SetupBuffer) -> Read<'_>
    ensures value { seen result ≡ record_onto buffer (at == 0) (drop at trace.now) }
    ensures noted { NotedRead (length trace.now) result }
    ensures read_back { IfOk result (λ s. (drop at trace.now ≡ encode (item_of s.0.0 s.0.1) ++ s.1.now) × (in_limits (item_of s.0.0 s.0.1) ≡ true)) }
{
    let bytes = trace.get(at..).ok_or(Refusal::Truncated)?;
    let end = trace.len();
    Tail { bytes, end }.read_front(at == 0, buffer)
}
