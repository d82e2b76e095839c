//! The reader of a trace: it stands on the trace's bytes and gives one record after another.
ghost use Rattle.std.specs.Prelude.{◌≡◌, ◌≤◌, length};
ghost use Rattle.trace.specs.Reading.{reading_later, later_outcome, NotedLater, ReadBack};

use crate::decoding::{read_later_record, read_record};
use crate::records::{Record, SetupBuffer};
use crate::refusal::{Refusal, Refused};

/// Stands on a trace at the offset where the next record begins.
#[derive(Drop)]
pub struct Reader<'a> {
    trace: &'a [u8],
    offset: usize,
    ghost inside: { offset ≤ length trace.now },
}

impl<'a> Reader<'a> {
    ghost use Rattle.trace.specs.Reader.{trace_of, next_offset};
    ghost use Rattle.trace.specs.Reading.{is_over, reading, outcome, offset_after, filled_after, NotedIn};

    /// A reader at the front of a trace.
    pub fn new(trace: &'a [u8]) -> Reader<'a>
        ensures trace { trace_of result ≡ trace.now }
        ensures offset { next_offset result ≡ 0 }
    {
        Reader { trace, offset: 0 }
    }

    /// Where the next record begins.
    pub fn offset(&self) -> usize
        ensures { result ≡ next_offset self.now }
    {
        self.offset
    }

    // Whether the trace ends here.
    fn is_over(&self) -> bool
        ensures { result ≡ is_over (trace_of self.now) (next_offset self.now) }
    {
        self.offset > 0 && self.offset == self.trace.len()
    }

    /// The next record, the end, or a refusal. A setup's script and bad lines go into the buffer.
    pub fn next(&mut self, buffer: &mut SetupBuffer) -> Result<Option<Record<'a>>, Refused>
        ensures trace { trace_of self.new ≡ trace_of self.old }
        ensures value { outcome result buffer.new (next_offset self.new) ≡ reading (trace_of self.old) (next_offset self.old) }
        ensures after { next_offset self.new ≡ offset_after (next_offset self.old) (reading (trace_of self.old) (next_offset self.old)) }
        ensures filled { buffer.new ≡ filled_after buffer.old (reading (trace_of self.old) (next_offset self.old)) }
        ensures noted { NotedIn result (next_offset self.new) }
        ensures read_back { ReadBack (trace_of self.old) (next_offset self.old) (outcome result buffer.new (next_offset self.new)) }
    {
        if self.is_over() {
            return Ok(None);
        }
        let offset = self.offset;
        let ((record, filled), rest) = read_record(self.trace, offset, *buffer).map_err(
            |refusal| Refused { refusal, offset },
        )?;
        self.offset = self.trace.len() - rest.len();
        *buffer = filled;
        Ok(Some(record))
    }
}

/// The record that begins at an offset behind the first record, and the offset behind it. A trace that ends there or before is at its end.
/// A record that was read is written as the bytes that it was read from.
// No setup stands there, so no buffer goes in or comes out.
pub fn read_later(trace: &[u8], offset: usize) -> Result<Option<(Record<'_>, usize)>, Refusal>
    ensures value { later_outcome offset result ≡ reading_later trace.now offset }
    ensures noted { NotedLater result }
    ensures read_back { offset ≤ length trace.now → ReadBack trace.now offset (later_outcome offset result) }
{
    if offset >= trace.len() {
        return Ok(None);
    }
    let (record, rest) = read_later_record(trace, offset)?;
    Ok(Some((record, trace.len() - rest.len())))
}
