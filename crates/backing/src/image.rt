//! The bytes that a memory stands on.
ghost use Rattle.std.specs.Prelude.{◌≡◌};
ghost use Rattle.backing.specs.Image.{lent_bytes, bad_lines_of, level_of, counted_bad_lines, line_count, has_line, fault_of, read_reply, write_reply, image_written};

use arrayvec::ArrayVec;
use line::LINE_SIZE;
use line::laying::{lay_at, line_at};
use list::keyed::entry_of;
use list::slices::front;
use memory::bad_line::BadLine;
use memory::limits::{MOST_BAD_LINES, MOST_LINES};
use memory::replies::{Fault, Reply};

/// Bytes that a caller lent, seen as lines of 16 bytes each, at most `MOST_LINES` of them. Bytes behind the last line are
/// never changed.
#[derive(Drop)]
pub struct Image<'a> {
    bytes: &'a mut [u8],
    level: u8,
    bad_lines: ArrayVec<BadLine, MOST_BAD_LINES>,
}

impl<'a> Image<'a> {
    /// An image on these bytes, whose faults name this level. Of the bad lines the first `MOST_BAD_LINES` pairs count.
    pub fn new(bytes: &'a mut [u8], level: u8, bad_lines: &[BadLine]) -> Image<'a>
        ensures bytes { lent_bytes result ≡ bytes.entry }
        ensures level { level_of result ≡ level }
        ensures bad_lines { bad_lines_of result ≡ counted_bad_lines bad_lines.now }
    {
        let counted = front(bad_lines, MOST_BAD_LINES);
        Image {
            bytes,
            level,
            bad_lines: ArrayVec::try_from(counted).unwrap(),
        }
    }

    /// How many lines there are.
    pub fn line_count(&self) -> u32
        ensures { result ≡ line_count self.now }
    {
        // at most `MOST_LINES`: `TryFrom` would add an error that cannot come
        (self.bytes.len() / LINE_SIZE).min(MOST_LINES as usize) as u32
    }

    // Whether there is such a line.
    fn has_line(&self, line: u32) -> bool
        ensures { result ≡ has_line self.now line }
    {
        line < self.line_count()
    }

    /// The fault of a line, if it is bad. Of two pairs for one line the first counts.
    pub fn fault(&self, line: u32) -> Option<Fault>
        ensures { result ≡ fault_of self.now line }
    {
        let bad = entry_of(self.bad_lines.as_slice(), line)?;
        Some(Fault {
            level: self.level,
            line,
            cause: bad.cause,
        })
    }

    /// What is due to a read of a line, or nothing where there is no such line.
    pub fn read_reply(&self, line: u32) -> Option<Reply>
        ensures { result ≡ read_reply self.now line }
    {
        if !self.has_line(line) {
            return None;
        }
        let bytes = line_at(self.bytes, line)?;
        Some(self.fault(line).map_or(Reply::Line(bytes), Reply::Fault))
    }

    /// What is due to a write to a line, or nothing where there is no such line.
    pub fn write_reply(&self, line: u32) -> Option<Reply>
        ensures { result ≡ write_reply self.now line }
    {
        if !self.has_line(line) {
            return None;
        }
        Some(self.fault(line).map_or(Reply::Done, Reply::Fault))
    }

    /// Lays new bytes on a line, where the mask says; a bad line stays as it is, and so does all where there is no such
    /// line.
    pub fn write(&mut self, line: u32, mask: u16, new: [u8; 16])
        ensures { self.new ≡ image_written self.old line mask new }
    {
        if self.has_line(line) && self.fault(line).is_none() {
            // the whole image: the line in its midst is lent on there
            lay_at(self.bytes, line, mask, new);
        }
    }

    /// The bytes, given back to the caller.
    pub fn into_bytes(self) -> &'a mut [u8]
        ensures { result ≡ lent_bytes self.entry }
    {
        self.bytes
    }
}
